// A period as text.
ghost use Rattle.std.specs.Prelude.{Some};
ghost use Rattle.period.specs.Periods.{fraction};
ghost use Rattle.period.specs.Text.{text};

use crate::period::Period;
use std::fmt;

// The numerator, a slash and the denominator, in base ten.
impl fmt::Display for Period {
    ghost output = { λ p. Some (text (fraction p)) };

    fn fmt<W: fmt::Write>(&self, f: &mut fmt::Formatter<W>) -> fmt::Result {
        write!(f, "{}/{}", self.numerator, self.denominator)
    }
}
