// Why a book is not scheduled or settled.
ghost use Rattle.std.specs.Prelude.{◌≡◌};
ghost use Rattle.engine.specs.Answers.{schedule_number, settle_number};
ghost use Rattle.engine.specs.declared.faults.SettleFault.TheVariants.{Period as Unnamed};

use period::NotAPeriod;

#[derive(Clone, Copy, PartialEq, Eq, Debug)]
pub enum ScheduleFault {
    // a domain list of another length than the number of flip-flops
    Length = 14,
}

impl ScheduleFault {
    // The number by which callers know the refusal.
    pub fn number(self) -> u8
        ensures { result ≡ schedule_number self }
    {
        self as u8
    }
}

#[derive(Clone, Copy, PartialEq, Eq, Debug)]
pub enum SettleFault {
    // two numbers that name no period
    Period = 12,
    // no assignment meets the period
    Unmeetable = 13,
    // a domain list of another length than the number of flip-flops
    Length = 14,
}

impl SettleFault {
    pub fn number(self) -> u8
        ensures { result ≡ settle_number self }
    {
        self as u8
    }
}

impl From<NotAPeriod> for SettleFault {
    ghost from_gives = { λ _ r. r ≡ Unnamed };

    fn from(_e: NotAPeriod) -> SettleFault {
        SettleFault::Period
    }
}
