// The account of a dump, as the program prints it.
#![tactic(auto)]

ghost use Rattle.std.specs.Prelude.{◌≡◌, IfOk, string_bytes};
ghost use Rattle.dumps.specs.Verdict.{accepted};
ghost use Rattle.netlist.specs.Circuits.{circuit};
ghost use Rattle.account.specs.Account.{skew_words, shown, Tells, Account};

use loader::{LoadError, load};
use netlist::Block;
use std::alloc::{AllocError, Global};

// A longer text is refused unread.
pub const MOST_BYTES: usize = 65536;

const TOO_LONG: &str = "refused 20: more than 65536 bytes\n";

// Skews, each after a blank.
fn skew_list(skews: &[u16], heap: Global) -> Result<String, AllocError>
    ensures { IfOk result (λ s. string_bytes s ≡ skew_words skews.now) }
{
    let mut all = String::new(heap);
    for skew in skews {
        write!(all, " {skew}")?;
    }
    Ok(all)
}

// A function and no `Display`: these are words of the account, and not of the block.
fn of_block(block: &Block, heap: Global) -> Result<String, AllocError>
    ensures { IfOk result (λ s. string_bytes s ≡ shown (accepted (circuit block.now))) }
{
    let parts = block.parts();
    let skews = skew_list(block.skews(), heap)?;
    let flops = block.flip_flops().len();
    let gates = block.gates().len();
    let wires = block.wires().len();
    format!(in heap;
        "accepted\nQ {parts} skews{skews}\nflip-flops {flops}\ngates {gates}\nwires {wires}\n"
    )
}

// Fails where the load failed for want of memory, and so is no `Display` either.
fn of_error(error: LoadError, heap: Global) -> Result<String, AllocError>
    ensures { IfOk result (λ s. Tells error (string_bytes s)) }
{
    match error {
        LoadError::Refused { ground, line } => {
            let number = ground.number();
            format!(in heap; "refused {number} at line {line}: {ground}\n")
        }
        LoadError::Memory => Err(AllocError),
    }
}

// What a text holds, or why it is refused. Fails only for want of memory.
pub fn account(text: &[u8], heap: Global) -> Result<String, AllocError>
    ensures { IfOk result (λ s. Account text.now (string_bytes s)) }
{
    if text.len() > MOST_BYTES {
        return String::from_str(heap, TOO_LONG);
    }
    let mut block = Block::new(heap);
    match load(text, heap, &mut block) {
        Ok(()) => of_block(&block, heap),
        Err(error) => of_error(error, heap),
    }
}
