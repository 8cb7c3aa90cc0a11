// Texts that are refused, and the empty block that a refusal leaves.
mod domains;
mod elements;
mod order;
mod pairs;
mod shape;
mod spelling;

use crate::figures::{EMPTY, check_block};
use crate::loads::{Refusal, verdict};
use netlist::Block;
use std::alloc::Global;
use std::process::Abort;
use std::test::Fail;

// A name, a text, and the number and the line of its refusal.
pub type Case = (&'static str, &'static str, u8, usize);

// What is in the caller's hands before each refused load.
const FILLED: &str = "\
0100040200000002\n\
0200050006\n\
0300010002\n\
040000000100000003\n\
040100000000000004\n\
05\n";

// A text is refused like this, and leaves the empty block.
pub fn check_refused(
    rt: &impl Abort,
    heap: Global,
    name: &str,
    block: &mut Block,
    text: &str,
    refusal: Refusal,
) -> Result<(), Fail> {
    assert_eq!(rt; verdict(text, heap, block)?, Some(refusal), "{name}");
    check_block(rt, &name, block, EMPTY);
    Ok(())
}

pub fn check_refusals(rt: &impl Abort, heap: Global, cases: &[Case]) -> Result<(), Fail> {
    for (name, text, number, line) in cases {
        let mut block = Block::new(heap);
        assert_eq!(rt; verdict(FILLED, heap, &mut block)?, None, "{}", *name);
        check_refused(rt, heap, name, &mut block, text, (*number, *line))?;
    }
    Ok(())
}
