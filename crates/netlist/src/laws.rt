// What holds of every block.
ghost use Rattle.circuit.specs.Sound.{Sound};
ghost use Rattle.netlist.specs.Circuits.{circuit};

use crate::block::Block;

// Every block is sound: its type keeps each limit.
pub fn every_block_is_sound(block: &Block)
    ensures { Sound (circuit block.now) }
{}
