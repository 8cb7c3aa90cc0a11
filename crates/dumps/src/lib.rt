// What a dump is, and on which ground a line of one is refused: specs/ holds the definitions, and the functions below carry the laws of them.
#![tactic(auto)]

mod ground;
mod laws;

pub use ground::Ground;
pub use laws::{every_sound_circuit_has_a_dump, one_answer};
