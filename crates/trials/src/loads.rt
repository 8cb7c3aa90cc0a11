// Loads of a text, told by the number and the line of the refusal.
use loader::{LoadError, load};
use netlist::Block;
use std::alloc::Global;
use std::test::Fail;

// A number and a line.
pub type Refusal = (u8, usize);

// The refusal of a text, or none where it is accepted.
pub fn verdict(text: &str, heap: Global, block: &mut Block) -> Result<Option<Refusal>, Fail> {
    match load(text.as_bytes(), heap, block) {
        Ok(()) => Ok(None),
        Err(LoadError::Refused { ground, line }) => Ok(Some((ground.number(), line))),
        Err(LoadError::Memory) => Err(Fail::new("no memory")),
    }
}
