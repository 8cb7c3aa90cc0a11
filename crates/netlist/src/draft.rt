// A block as it grows: sound in all but that a gate may still lack a wire in or a wire out.
ghost use Rattle.std.specs.Prelude.{◌≡◌, ◌≤◌, true, map, length};
ghost use Rattle.circuit.specs.Limits.{most_flops, most_gates, most_wires};
ghost use Rattle.circuit.specs.Sound.{every, runs};
ghost use Rattle.netlist.specs.Figures.{flop_of, gate_of, wire_of};

use crate::domains::DomainSet;
use crate::elements::{FlipFlop, Gate, Wire};
use crate::limits::{MOST_FLIP_FLOPS, MOST_GATES, MOST_WIRES};
use crate::table::Table;

mod change;
mod cover;
mod grow;

#[derive(Drop)]
pub struct Draft {
    pub(crate) domains: DomainSet,
    pub(crate) flops: Table<FlipFlop, MOST_FLIP_FLOPS>,
    pub(crate) gates: Table<Gate, MOST_GATES>,
    pub(crate) wires: Table<Wire, MOST_WIRES>,
    ghost few_flops: { length (map flop_of flops) ≤ most_flops },
    ghost few_gates: { length (map gate_of gates) ≤ most_gates },
    ghost few_wires: { length (map wire_of wires) ≤ most_wires },
    ghost wired: { every (runs (length (map flop_of flops)) (length (map gate_of gates))) (map wire_of wires) ≡ true },
}
