// Two books of any kinds bound into one.
ghost use Rattle.std.specs.Prelude.{◌≡◌};
ghost use Rattle.boundbook.specs.Bound.{bound};
ghost use Rattle.boundbook.specs.Binding.{BindCall, too_many_number, Sided};
ghost use Rattle.boundbook.specs.BindingLemmas.{bound_sound};

use books::limits::MOST_CHECKS;
use books::{Book, Ends};
use period::Period;

// The checks of the first book, then those of the second.
#[derive(Drop)]
pub struct Bound<A, B> {
    pub first: A,
    pub second: B,
}

// Two books with too many checks together, handed back. Its two fields are those of a bound book: with a `Bound` in it each caller would
// write `books.first` for `first`.
#[derive(Drop)]
pub struct TooManyChecks<A, B> {
    pub first: A,
    pub second: B,
}

const TOO_MANY_NUMBER: u8 = 19;

impl<A, B> TooManyChecks<A, B> {
    pub fn number(&self) -> u8
        ensures { result ≡ too_many_number }
    {
        TOO_MANY_NUMBER
    }
}

// Binds two books, unless they have too many checks together.
pub fn bind<A: Book, B: Book>(first: A, second: B) -> Result<Bound<A, B>, TooManyChecks<A, B>>
    ensures { BindCall A.Book.meaning B.Book.meaning first second result }
{
    if first.checks() + second.checks() > MOST_CHECKS {
        return Err(TooManyChecks { first, second });
    }
    Ok(Bound { first, second })
}

// The book that has a check, with its place there. An enum and no `Either`: the names say which book, and each arm asks one of another type.
#[derive(Clone, Copy)]
enum Side {
    First(usize),
    Second(usize),
}

impl<A: Book, B: Book> Bound<A, B> {
    // Where the check at a place stands, or none beyond the last check.
    fn side(&self, place: usize) -> Option<Side>
        ensures { Sided (A.Book.meaning self.now.first) (B.Book.meaning self.now.second) place result }
    {
        if place >= MOST_CHECKS {
            return None;
        }
        let count = self.first.checks();
        if place < count {
            Some(Side::First(place))
        } else {
            Some(Side::Second(place - count))
        }
    }
}

impl<A: Book, B: Book> Book for Bound<A, B> {
    ghost meaning = { λ s. bound (A.Book.meaning s.first) (B.Book.meaning s.second) };

    ghost sound = { λ b. bound_sound _ _ (A.Book.sound b.first) (B.Book.sound b.second) };

    fn flops(&self) -> usize {
        self.first.flops().max(self.second.flops())
    }

    fn domains(&self) -> usize {
        self.first.domains().min(self.second.domains())
    }

    #[tactic(auto, using(crate::specs::BindingLemmas::bound_count))]
    fn checks(&self) -> usize {
        (self.first.checks() + self.second.checks()).min(MOST_CHECKS)
    }

    fn floor(&self) -> Period {
        self.first.floor().max(self.second.floor())
    }

    fn ends(&self, place: usize) -> Option<Ends> {
        match self.side(place)? {
            Side::First(at) => self.first.ends(at),
            Side::Second(at) => self.second.ends(at),
        }
    }

    // Each of the two may have more domains than both have.
    fn need(&self, place: usize, start_domain: usize, end_domain: usize) -> Option<Period> {
        let domains = self.domains();
        if start_domain >= domains || end_domain >= domains {
            return None;
        }
        match self.side(place)? {
            Side::First(at) => self.first.need(at, start_domain, end_domain),
            Side::Second(at) => self.second.need(at, start_domain, end_domain),
        }
    }
}
