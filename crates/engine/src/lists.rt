// The domains of an assignment: what a check needs under them, and raising one.
ghost use Rattle.std.specs.Prelude.{◌<◌, ◌≤◌, length};
ghost use Rattle.checks.specs.Limits.{most_domains};
ghost use Rattle.engine.specs.Turns.{Covers, NeededAt, Stepped};

use books::{Book, Ends};
use period::Period;

// The period that a check needs under an assignment, and the flip-flop where the check ends.
#[derive(Clone, Copy)]
pub(crate) struct Need {
    pub(crate) period: Period,
    pub(crate) end: usize,
}

// The need of the check at a place, or none beyond the last check.
pub(crate) fn need_under<B: Book>(book: &B, place: usize, domains: &[u8]) -> Option<Need>
    requires { Covers (B.meaning book.now) domains.now }
    ensures { NeededAt (B.meaning book.now) domains.now place result }
{
    let Ends { start, end } = book.ends(place)?;
    let period = book.need(place, domains[start] as usize, domains[end] as usize)?;
    Some(Need { period, end })
}

// Raises the domain of a flip-flop by one, unless it is in the last of `count` domains; says whether it did.
pub(crate) fn step_up(domains: &mut [u8], flop: usize, count: usize) -> bool
    requires there { flop < length domains.old }
    requires few { count ≤ most_domains }
    ensures { Stepped flop count domains.old domains.new result }
{
    let higher = domains[flop] as usize + 1 < count;
    if higher {
        domains[flop] += 1;
    }
    higher
}
