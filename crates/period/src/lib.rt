// A clock period: an exact fraction in lowest terms, its order and its text.
#![tactic(auto)]

mod faults;
mod laws;
pub mod limits;
mod period;
#[cfg(test)]
mod tests;

pub use faults::NotAPeriod;
pub use laws::{one_period_per_length, periods_compare_by_length};
pub use period::Period;
