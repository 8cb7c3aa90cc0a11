// The limits of a book of any kind.

pub const MOST_FLOPS: usize = 256;

pub const MOST_DOMAINS: usize = 8;

pub const MOST_CHECKS: usize = 100_000;
