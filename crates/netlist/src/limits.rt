// The limits of a block.
pub const MOST_FLIP_FLOPS: usize = 256;

pub const MOST_GATES: usize = 1024;

pub const MOST_WIRES: usize = 4096;

pub const MOST_DOMAINS: usize = 8;
// The largest number of parts that a period is divided into.
pub const MOST_PARTS: u16 = 256;
