// A circuit block: its elements, its clock domains, the tables that hold them, and the changes of one element.
#![tactic(auto)]

mod block;
mod domains;
mod draft;
mod elements;
mod faults;
mod laws;
pub mod limits;
mod table;

pub use block::Block;
pub use draft::Draft;
pub use elements::{FlipFlop, Gate, Place, Terminal, Wire};
pub use faults::{BlockFault, ChangeFault, UnknownClass};
pub use laws::every_block_is_sound;
