ghost use Rattle.std.specs.Prelude.{◌≡◌};
ghost use Rattle.period.specs.Refusal.{refusal_number};

// The refusal of two numbers that name no period.
#[derive(Clone, Copy, PartialEq, Eq, Debug)]
pub struct NotAPeriod;

const REFUSAL_NUMBER: u8 = 12;

impl NotAPeriod {
    // The number by which callers know the refusal.
    pub fn number(self) -> u8
        ensures { result ≡ refusal_number }
    {
        REFUSAL_NUMBER
    }
}
