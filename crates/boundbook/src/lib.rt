// The bound book: two books of any kinds as one.
#![tactic(auto)]

mod bound;

pub use bound::{Bound, TooManyChecks, bind};
