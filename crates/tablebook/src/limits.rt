// The limits of a table book beside those of every book.

pub const MOST_TABLE_CHECKS: usize = 65_536;

// The largest figure and the largest floor.
pub const MOST_FIGURE: u32 = 1_000_000_000;
