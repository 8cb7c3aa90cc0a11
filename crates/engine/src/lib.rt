// Schedules and settles any book of checks, without allocating.
#![tactic(auto)]

mod faults;
mod lists;
mod pairs;
mod raising;
mod settling;

pub use faults::{ScheduleFault, SettleFault};
pub use pairs::{schedule_both, settle_both};
pub use raising::schedule;
pub use settling::settle;
