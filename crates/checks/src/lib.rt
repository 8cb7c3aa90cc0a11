// What a book of checks means and what scheduling and settling answer: specs/ holds the definitions, and the functions below carry the laws of them.
#![tactic(auto)]

mod laws;

pub use laws::{one_period_each, one_schedule, one_settlement};
