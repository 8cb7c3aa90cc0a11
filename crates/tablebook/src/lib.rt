// The table book: checks whose needs are figures of tables, kept by the library keeper.
#![tactic(auto)]

mod faults;
mod fitting;
pub mod limits;
mod sheet;
mod table;

pub use faults::FillFault;
pub use sheet::{Sheet, TableCheck};
pub use table::TableBook;
