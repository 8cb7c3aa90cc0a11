// Reads the text of a dump into a block, or refuses it with a ground and a line.
#![tactic(auto)]

mod assembly;
mod digits;
mod faults;
mod frame;
mod laws;
mod stage;
mod text;

pub use laws::{every_sound_circuit_loads, one_load_answer};
pub use text::{LoadError, load};
