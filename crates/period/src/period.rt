// A clock period. No period outside its limits, and none with a common divisor, can be made.
ghost use Rattle.std.specs.Prelude.{◌≡◌, ◌<◌, ◌≤◌};
ghost use Rattle.fractions.specs.Limits.{most_num, most_den};
ghost use Rattle.fractions.specs.Fraction.{Coprime, whole, GreatestDivisor};

use crate::faults::NotAPeriod;
use crate::limits::{MOST_DENOMINATOR, MOST_NUMERATOR};

pub(crate) mod order;
pub(crate) mod text;

// The length `numerator` ÷ `denominator`, in lowest terms; zero is 0 ÷ 1.
#[derive(Clone, Copy, PartialEq, Eq, Debug)]
pub struct Period {
    numerator: u64,
    denominator: u16,
    ghost few_units: { numerator ≤ most_num },
    ghost parted: { 0 < denominator },
    ghost coarse: { denominator ≤ most_den },
    ghost lowest_terms: { Coprime numerator denominator },
}

impl Period {
    ghost use Rattle.period.specs.Periods.{fraction, Named};

    // The period of so many time units.
    #[tactic(auto, using(fractions::proofs::Lowest::coprime_one))]
    fn of_units(units: u64) -> Period
        requires { units ≤ most_num }
        ensures { fraction result ≡ whole units }
    {
        Period {
            numerator: units,
            denominator: 1,
        }
    }

    pub fn zero() -> Period
        ensures { fraction result ≡ whole 0 }
    {
        Period::of_units(0)
    }

    pub fn longest() -> Period
        ensures { fraction result ≡ whole most_num }
    {
        Period::of_units(MOST_NUMERATOR)
    }

    // The period that two numbers name, unless as written they are outside the limits. A call by name and no `TryFrom`, which would take a pair that
    // does not say which number is which.
    #[tactic(auto, using(fractions::proofs::Lowest::reduced))]
    pub fn named(numerator: u64, denominator: u64) -> Result<Period, NotAPeriod>
        ensures { Named numerator denominator result }
    {
        if numerator > MOST_NUMERATOR || denominator == 0 || denominator > MOST_DENOMINATOR {
            return Err(NotAPeriod);
        }
        let common = common_divisor(numerator, denominator);
        Ok(Period {
            numerator: numerator / common,
            denominator: (denominator / common) as u16,
        })
    }

    pub fn numerator(self) -> u64
        ensures { result ≡ (fraction self).num }
    {
        self.numerator
    }

    pub fn denominator(self) -> u16
        ensures { result ≡ (fraction self).den }
    {
        self.denominator
    }
}

// Each count of time units of 32 bits is within the limits.
impl From<u32> for Period {
    ghost use Rattle.period.specs.Periods.{fraction};

    ghost from_gives = { λ units p. fraction p ≡ whole units };

    fn from(units: u32) -> Period {
        Period::of_units(units as u64)
    }
}

// The greatest common divisor, by Euclid's remainders.
fn common_divisor(first: u64, second: u64) -> u64
    ensures { GreatestDivisor first second result }
{
    let (mut larger, mut smaller) = (first, second);
    while smaller > 0 {
        (larger, smaller) = (smaller, larger % smaller);
    }
    larger
}
