// How a draft takes its elements, one by one. Three calls and no generic one: each takes figures of its own and refuses them on grounds of its own;
// what they share, the room and the push, is the table's.
ghost use Rattle.std.specs.Prelude.{◌≡◌, length};
ghost use Rattle.circuit.specs.Circuit.{empty};
ghost use Rattle.circuit.specs.Sound.{forward, there};
ghost use Rattle.netlist.specs.Figures.{place_of, terminal_of};
ghost use Rattle.netlist.specs.Growth.{SetDomainsCall, AddFlopCall, AddGateCall, AddWireCall, Resolved, Linked};
ghost use Rattle.netlist.specs.Drafted.{drafted};

use crate::domains::DomainSet;
use crate::draft::Draft;
use crate::elements::{FlipFlop, Gate, Place, Terminal, Wire};
use crate::faults::BlockFault;
use crate::table::Table;
use std::alloc::Global;

// A wire between gates starts at the smaller number; any other may run as it likes.
fn runs_forward(start: Place, end: Place) -> bool
    ensures { result ≡ forward (place_of start) (place_of end) }
{
    match (start, end) {
        (Place::Gate(m), Place::Gate(n)) => m < n,
        _ => true,
    }
}

impl Draft {
    // The empty block: one part, one domain of skew 0, nothing else.
    pub fn new(heap: Global) -> Draft
        ensures { drafted result ≡ empty }
    {
        Draft {
            domains: DomainSet::single(),
            flops: Table::new(heap),
            gates: Table::new(heap),
            wires: Table::new(heap),
        }
    }

    pub fn set_domains(&mut self, parts: u16, skews: &[u16]) -> Result<(), BlockFault>
        ensures { SetDomainsCall (drafted self.old) parts skews.now result (drafted self.new) }
    {
        self.domains = DomainSet::new(parts, skews).ok_or(BlockFault::Domains)?;
        Ok(())
    }

    #[tactic(auto, using(crate::proofs::Wired::few_pushed, crate::proofs::Wired::wired_push_flop))]
    pub fn add_flip_flop(&mut self, setup: u16, hold: i16) -> Result<(), BlockFault>
        ensures { AddFlopCall (drafted self.old) setup hold result (drafted self.new) }
    {
        self.flops.room()?;
        self.flops.push(FlipFlop::new(setup, hold))?;
        Ok(())
    }

    #[tactic(auto, using(crate::proofs::Wired::wired_push_gate))]
    pub fn add_gate(&mut self, smaller: u16, larger: u16) -> Result<(), BlockFault>
        ensures { AddGateCall (drafted self.old) smaller larger result (drafted self.new) }
    {
        self.gates.room()?;
        let gate = Gate::new(smaller, larger).ok_or(BlockFault::Delays)?;
        self.gates.push(gate)?;
        Ok(())
    }

    // Whether the place is there.
    fn has(&self, place: Place) -> bool
        ensures { result ≡ there (length (drafted self.now).flops) (length (drafted self.now).gates) (place_of place) }
    {
        match place {
            Place::FlipFlop(number) => usize::from(number) < self.flops.as_slice().len(),
            Place::Gate(number) => usize::from(number) < self.gates.as_slice().len(),
        }
    }

    // The place that a terminal names.
    fn place(&self, terminal: Terminal) -> Result<Place, BlockFault>
        ensures { Resolved (drafted self.now) (terminal_of terminal) result }
    {
        let place = Place::try_from(terminal)?;
        if !self.has(place) {
            return Err(BlockFault::Absent);
        }
        Ok(place)
    }

    // A wire between the places that two terminals name.
    fn link(&self, start: Terminal, end: Terminal, delay: u16) -> Result<Wire, BlockFault>
        ensures { Linked (drafted self.now) (terminal_of start) (terminal_of end) delay result }
    {
        let from = self.place(start)?;
        let to = self.place(end)?;
        if !runs_forward(from, to) {
            return Err(BlockFault::Backward);
        }
        Ok(Wire::new(from, to, delay))
    }

    pub fn add_wire(&mut self, start: Terminal, end: Terminal, delay: u16) -> Result<(), BlockFault>
        ensures { AddWireCall (drafted self.old) (terminal_of start) (terminal_of end) delay result (drafted self.new) }
    {
        self.wires.room()?;
        let wire = self.link(start, end, delay)?;
        self.wires.push(wire)?;
        Ok(())
    }
}
