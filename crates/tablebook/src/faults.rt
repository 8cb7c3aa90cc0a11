// Why a table book is not filled.
ghost use Rattle.std.specs.Prelude.{◌≡◌};
ghost use Rattle.tablebook.specs.Refusals.{fill_number};
ghost use Rattle.tablebook.specs.declared.faults.FillFault.TheVariants.{Memory};

use std::alloc::AllocError;

#[derive(Clone, Copy, PartialEq, Eq, Debug)]
pub enum FillFault {
    // a count, a table, a check, a figure or the floor outside the limits
    Limits,
    // a table that breaks a law
    Laws,
    Memory,
}

impl FillFault {
    // The number of a refusal; want of memory has none, and so there are no discriminants.
    pub fn number(self) -> Option<u8>
        ensures { result ≡ fill_number self }
    {
        match self {
            FillFault::Limits => Some(17),
            FillFault::Laws => Some(18),
            FillFault::Memory => None,
        }
    }
}

impl From<AllocError> for FillFault {
    ghost from_gives = { λ _ r. r ≡ Memory };

    fn from(_: AllocError) -> FillFault {
        FillFault::Memory
    }
}
