// Whether every gate has a wire in and a wire out.
ghost use Rattle.std.specs.Prelude.{◌≡◌, ℕ, ◌<◌, false, ◌||◌, ◌↔◌, IsTrue, length, slice_index_or};
ghost use Rattle.circuit.specs.Sound.{is_gate, Covered};
ghost use Rattle.netlist.specs.Figures.{place_of};
ghost use Rattle.netlist.specs.Growth.{CloseCall};
ghost use Rattle.netlist.specs.Drafted.{drafted};

use crate::draft::Draft;
use crate::elements::Place;
use crate::faults::BlockFault;
use crate::limits::MOST_GATES;

// Marks the gate that a place is, if it is one.
fn mark(marks: &mut [bool], place: Place)
    ensures { (g : ℕ) → g < length marks.old → slice_index_or marks.new g false ≡ (slice_index_or marks.old g false || is_gate g (place_of place)) }
{
    if let Place::Gate(number) = place {
        let gate = usize::from(number);
        // By index: tried with `get_mut`, which does not say what a slice ends as, and the proof did not close.
        if gate < marks.len() {
            marks[gate] = true;
        }
    }
}

impl Draft {
    // Whether every gate has a wire in and a wire out. One walk over the wires and one over the gates.
    fn is_joined_up(&self) -> bool
        ensures { IsTrue result ↔ Covered (drafted self.now) }
    {
        // Arrays of a fixed size: a `Vec` may want memory, which `close` does not tell, and an `ArrayVec` would first be filled with a mark for each gate.
        let mut fed = [false; MOST_GATES];
        let mut drained = [false; MOST_GATES];
        let wires = self.wires.as_slice();
        for wire in wires {
            mark(&mut fed, wire.end());
            mark(&mut drained, wire.start());
        }
        let gates = self.gates.as_slice().len();
        !fed[..gates].contains(&false) && !drained[..gates].contains(&false)
    }

    // Refuses a draft with an open gate.
    pub fn close(&self) -> Result<(), BlockFault>
        ensures { CloseCall (drafted self.now) result }
    {
        if self.is_joined_up() {
            Ok(())
        } else {
            Err(BlockFault::Open)
        }
    }
}
