// The whole text: its lines in turn, and the block or the refusal at the end.
ghost use Rattle.std.specs.Prelude.{◌≡◌};
ghost use Rattle.dumps.specs.Reading.{judge};
ghost use Rattle.netlist.specs.Circuits.{circuit};
ghost use Rattle.loader.specs.Load.{error_number, error_line, load_answer, LoadCall, TextRead};

use crate::assembly::Assembly;
use crate::digits::LINE_FEED;
use dumps::Ground;
use netlist::Block;
use std::alloc::Global;

// Why a text was not loaded: a ground with a line, counted from 1, or want of memory.
#[derive(Clone, Copy, PartialEq, Eq, Debug)]
pub enum LoadError {
    Refused { ground: Ground, line: usize },
    Memory,
}

impl LoadError {
    // The number of a refusal; want of memory has none.
    pub fn number(self) -> Option<u8>
        ensures { result ≡ error_number self }
    {
        match self {
            LoadError::Refused { ground, .. } => Some(ground.number()),
            LoadError::Memory => None,
        }
    }

    // The line of a refusal, counted from 1; want of memory has none.
    pub fn line(self) -> Option<usize>
        ensures { result ≡ error_line self }
    {
        match self {
            LoadError::Refused { line, .. } => Some(line),
            LoadError::Memory => None,
        }
    }
}

// The block that a text writes.
fn read(text: &[u8], heap: Global) -> Result<Block, LoadError>
    ensures { TextRead result text.now (judge text.now) }
{
    let mut assembly = Assembly::new(heap);
    // Counted here, and not by `enumerate`: an end that is missing is charged to the number after the last.
    let mut number = 1;
    for line in text.split_inclusive(|b| *b == LINE_FEED) {
        assembly.take(line, heap).map_err(|fault| fault.at(number))?;
        number += 1;
    }
    assembly.finish().map_err(|fault| fault.at(number))
}

// Reads a text into the caller's block. A refusal, and want of memory, leave the empty block there.
pub fn load(text: &[u8], heap: Global, block: &mut Block) -> Result<(), LoadError>
    ensures { LoadCall text.now (load_answer result) (circuit block.new) }
{
    *block = Block::new(heap);
    *block = read(text, heap)?;
    Ok(())
}
