// A circuit block. No block that breaks a limit or leaves a gate open can exist.
ghost use Rattle.std.specs.Prelude.{◌≡◌, ◌≤◌, map, length};
ghost use Rattle.std.specs.List.{slice_get};
ghost use Rattle.std.specs.Option.{option_map};
ghost use Rattle.circuit.specs.Circuit.{empty};
ghost use Rattle.circuit.specs.Limits.{most_flops, most_gates, most_wires};
ghost use Rattle.circuit.specs.Sound.{Fed, Drained};
ghost use Rattle.netlist.specs.Drafted.{drafted};
ghost use Rattle.netlist.specs.Figures.{flop_of, gate_of, wire_of};
ghost use Rattle.netlist.specs.Changes.{change_code, ChangeGateCall, ChangeWireCall, ChangeFlopCall};

use crate::draft::Draft;
use crate::elements::{FlipFlop, Gate, Wire};
use crate::faults::{BlockFault, ChangeFault};
use std::alloc::Global;

#[derive(Drop)]
pub struct Block {
    draft: Draft,
    ghost fed: { Fed (length (drafted draft).gates) (drafted draft).wires },
    ghost drained: { Drained (length (drafted draft).gates) (drafted draft).wires },
}

impl Block {
    ghost use Rattle.netlist.specs.Circuits.{circuit, FinishCall};

    // The empty block: one part, one domain of skew 0, nothing else.
    pub fn new(heap: Global) -> Block
        ensures { circuit result ≡ empty }
    {
        Block {
            draft: Draft::new(heap),
        }
    }

    // The block of a finished draft, unless a gate lacks a wire in or a wire out.
    pub fn of(draft: Draft) -> Result<Block, BlockFault>
        ensures { FinishCall draft result }
    {
        draft.close()?;
        Ok(Block { draft })
    }

    // Into how many parts the period is divided.
    pub fn parts(&self) -> u16
        ensures { result ≡ (circuit self.now).parts }
    {
        self.draft.domains.parts()
    }

    // The skew of each domain in parts.
    pub fn skews(&self) -> &[u16]
        ensures { result.now ≡ (circuit self.now).skews }
    {
        self.draft.domains.skews()
    }

    pub fn flip_flops(&self) -> &[FlipFlop]
        ensures figures { map flop_of result.now ≡ (circuit self.now).flops }
        ensures len { length result.now ≡ length (circuit self.now).flops }
        ensures few { length result.now ≤ most_flops }
    {
        self.draft.flops.as_slice()
    }

    pub fn gates(&self) -> &[Gate]
        ensures figures { map gate_of result.now ≡ (circuit self.now).gates }
        ensures len { length result.now ≡ length (circuit self.now).gates }
        ensures few { length result.now ≤ most_gates }
    {
        self.draft.gates.as_slice()
    }

    pub fn wires(&self) -> &[Wire]
        ensures figures { map wire_of result.now ≡ (circuit self.now).wires }
        ensures len { length result.now ≡ length (circuit self.now).wires }
        ensures few { length result.now ≤ most_wires }
    {
        self.draft.wires.as_slice()
    }

    // The flip-flop of this number, or none beyond the last.
    pub fn flip_flop(&self, number: usize) -> Option<FlipFlop>
        ensures { option_map flop_of result ≡ slice_get (circuit self.now).flops number }
    {
        self.flip_flops().get(number).copied()
    }

    // The gate of this number, or none beyond the last.
    pub fn gate(&self, number: usize) -> Option<Gate>
        ensures { option_map gate_of result ≡ slice_get (circuit self.now).gates number }
    {
        self.gates().get(number).copied()
    }

    // The wire of this number, or none beyond the last.
    pub fn wire(&self, number: usize) -> Option<Wire>
        ensures { option_map wire_of result ≡ slice_get (circuit self.now).wires number }
    {
        self.wires().get(number).copied()
    }

    // The three changes, as in the draft: each takes figures of its own.

    // Replaces the delays of one gate.
    pub fn change_gate(
        &mut self,
        number: usize,
        smaller: u16,
        larger: u16,
    ) -> Result<(), ChangeFault>
        ensures { ChangeGateCall (circuit self.old) number smaller larger (change_code result) (circuit self.new) }
    {
        self.draft.change_gate(number, smaller, larger)
    }

    // Replaces the delay of one wire.
    pub fn change_wire(&mut self, number: usize, delay: u16) -> Result<(), ChangeFault>
        ensures { ChangeWireCall (circuit self.old) number delay (change_code result) (circuit self.new) }
    {
        self.draft.change_wire(number, delay)
    }

    // Replaces the setup and the hold time of one flip-flop.
    pub fn change_flip_flop(
        &mut self,
        number: usize,
        setup: u16,
        hold: i16,
    ) -> Result<(), ChangeFault>
        ensures { ChangeFlopCall (circuit self.old) number setup hold (change_code result) (circuit self.new) }
    {
        self.draft.change_flip_flop(number, setup, hold)
    }
}
