// What the engine asks of a book of checks.
ghost use Rattle.std.specs.Prelude.{◌≡◌, length};
ghost use Rattle.fractions.specs.Fraction.{AsLong};
ghost use Rattle.checks.specs.Model.{Model, Sound};
ghost use Rattle.period.specs.Periods.{fraction};
ghost use Rattle.books.specs.Answers.{ends_at, Needs};

use period::Period;

// The flip-flops where a check starts and ends.
#[derive(Clone, Copy)]
pub struct Ends {
    pub start: usize,
    pub end: usize,
}

// A kind of book gives its meaning and shows the limits and both laws of it.
pub trait Book {
    ghost meaning: { Self → Model };

    fn flops(&self) -> usize
        ensures { result ≡ (meaning self.now).flops };

    fn domains(&self) -> usize
        ensures { result ≡ (meaning self.now).domains };

    // The number of checks.
    fn checks(&self) -> usize
        ensures { result ≡ length (meaning self.now).checks };

    fn floor(&self) -> Period
        ensures { AsLong (fraction result) (meaning self.now).floor };

    // The ends of the check at a place, or none beyond the last check.
    fn ends(&self, place: usize) -> Option<Ends>
        ensures { result ≡ ends_at (meaning self.now) place };

    // What it needs in these domains of its start and its end, or none beyond the last check or domain. Two numbers and no `Ends`, which are flip-flops.
    fn need(&self, place: usize, start_domain: usize, end_domain: usize) -> Option<Period>
        ensures { Needs (meaning self.now) place start_domain end_domain result };

    ghost sound: { (b : Self) → Sound (meaning b) };
}
