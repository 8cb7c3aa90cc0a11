// Changes of one element of a draft, which its table lends. Three calls and no generic one: each takes figures of its own, and only those of a
// gate can be refused; what they share is the loan.
ghost use Rattle.netlist.specs.Changes.{change_code, ChangeGateCall, ChangeWireCall, ChangeFlopCall};
ghost use Rattle.netlist.specs.Drafted.{drafted};

use crate::draft::Draft;
use crate::elements::{FlipFlop, Gate};
use crate::faults::ChangeFault;

impl Draft {
    pub(crate) fn change_gate(
        &mut self,
        number: usize,
        smaller: u16,
        larger: u16,
    ) -> Result<(), ChangeFault>
        ensures { ChangeGateCall (drafted self.old) number smaller larger (change_code result) (drafted self.new) }
    {
        let gate = self.gates.lend(number).ok_or(ChangeFault::Missing)?;
        *gate = Gate::new(smaller, larger).ok_or(ChangeFault::Delays)?;
        Ok(())
    }

    pub(crate) fn change_wire(&mut self, number: usize, delay: u16) -> Result<(), ChangeFault>
        ensures { ChangeWireCall (drafted self.old) number delay (change_code result) (drafted self.new) }
    {
        let wire = self.wires.lend(number).ok_or(ChangeFault::Missing)?;
        wire.set_delay(delay);
        Ok(())
    }

    pub(crate) fn change_flip_flop(
        &mut self,
        number: usize,
        setup: u16,
        hold: i16,
    ) -> Result<(), ChangeFault>
        ensures { ChangeFlopCall (drafted self.old) number setup hold (change_code result) (drafted self.new) }
    {
        let flop = self.flops.lend(number).ok_or(ChangeFault::Missing)?;
        *flop = FlipFlop::new(setup, hold);
        Ok(())
    }
}
