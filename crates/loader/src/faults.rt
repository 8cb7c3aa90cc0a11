// The fault of one line, before the loader adds which line it is.
ghost use Rattle.std.specs.Prelude.{◌≡◌};
ghost use Rattle.loader.specs.declared.faults.LineFault.TheVariants.{Memory};
ghost use Rattle.loader.specs.Load.{with_line};
ghost use Rattle.loader.specs.Lines.{of_block};

use crate::text::LoadError;
use dumps::Ground;
use netlist::BlockFault;
use std::alloc::{AllocError, AllocFailed};

#[derive(Clone, Copy)]
pub enum LineFault {
    Refused(Ground),
    Memory,
}

impl LineFault {
    // The fault with the line where it was found.
    pub fn at(self, line: usize) -> LoadError
        ensures { result ≡ with_line self line }
    {
        match self {
            LineFault::Refused(ground) => LoadError::Refused { ground, line },
            LineFault::Memory => LoadError::Memory,
        }
    }
}

// Two conversions, since `?` makes one step: a list that is collected fails with the first, and a push hands its item back in the second.
impl From<AllocError> for LineFault {
    ghost from_gives = { λ _ fault. fault ≡ Memory };

    fn from(_e: AllocError) -> LineFault {
        LineFault::Memory
    }
}

impl<T: Drop> From<AllocFailed<T>> for LineFault {
    ghost from_gives = { λ _ fault. fault ≡ Memory };

    fn from(_e: AllocFailed<T>) -> LineFault {
        LineFault::Memory
    }
}

impl From<BlockFault> for LineFault {
    ghost from_gives = { λ e fault. fault ≡ of_block e };

    fn from(e: BlockFault) -> LineFault {
        match e {
            BlockFault::Domains => LineFault::Refused(Ground::Domains),
            BlockFault::Surplus => LineFault::Refused(Ground::Surplus),
            BlockFault::Delays => LineFault::Refused(Ground::Delays),
            BlockFault::Absent => LineFault::Refused(Ground::Absent),
            BlockFault::Backward => LineFault::Refused(Ground::Backward),
            BlockFault::Open => LineFault::Refused(Ground::Open),
            BlockFault::Memory => LineFault::Memory,
        }
    }
}
