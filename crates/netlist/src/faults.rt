// Why a block cannot take what it is given.
ghost use Rattle.std.specs.Prelude.{◌≡◌};
ghost use Rattle.netlist.specs.Changes.{change_number};
ghost use Rattle.netlist.specs.declared.faults.BlockFault.TheVariants.{Absent, Memory};

use std::alloc::AllocError;

// The fault of a block that grows.
#[derive(Clone, Copy)]
pub enum BlockFault {
    // a domain set outside its limits
    Domains,
    // one flip-flop, gate or wire too many
    Surplus,
    // a smaller delay above the larger one
    Delays,
    // a wire that names a class or number that is not there
    Absent,
    // a wire between gates that does not start at the smaller number
    Backward,
    // a gate with no wire in or no wire out
    Open,
    // no memory
    Memory,
}

impl From<AllocError> for BlockFault {
    ghost from_gives = { λ _ r. r ≡ Memory };

    fn from(_e: AllocError) -> BlockFault {
        BlockFault::Memory
    }
}

// A class that is neither that of flip-flops nor that of gates.
#[derive(Clone, Copy)]
pub struct UnknownClass;

impl From<UnknownClass> for BlockFault {
    ghost from_gives = { λ _ r. r ≡ Absent };

    fn from(_e: UnknownClass) -> BlockFault {
        BlockFault::Absent
    }
}

// Why a change of one element is refused, with the number by which callers know it.
#[derive(Clone, Copy, PartialEq, Eq, Debug)]
pub enum ChangeFault {
    // no element has this number
    Missing = 10,
    // a smaller delay above the larger one
    Delays = 11,
}

impl ChangeFault {
    // The number by which callers know the refusal.
    pub fn number(self) -> u8
        ensures { result ≡ change_number self }
    {
        self as u8
    }
}
