// Books of checks: what the engine asks of every kind, and the limits of each.
#![tactic(auto)]

mod book;
pub mod limits;

pub use book::{Book, Ends};
