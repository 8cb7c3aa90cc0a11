// The limits of a period as it is written.
pub const MOST_NUMERATOR: u64 = 40_000_000_000;

pub const MOST_DENOMINATOR: u64 = 4_095;
