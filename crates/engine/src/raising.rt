// Scheduling: the shortest period that any assignment meets, and the lowest assignment that meets it.
ghost use Rattle.checks.specs.Calls.{ScheduleCall};
ghost use Rattle.period.specs.Periods.{fraction};
ghost use Rattle.engine.specs.Answers.{schedule_answer};
ghost use Rattle.std.specs.Prelude.{◌<◌, ◌≤◌, length};
ghost use Rattle.std.specs.Option.{ForSome};
ghost use Rattle.checks.specs.Limits.{most_domains};
ghost use Rattle.engine.specs.Turns.{Improved, Raised, Risen, Worsened};

use crate::faults::ScheduleFault;
use crate::lists::{Need, need_under, step_up};
use books::Book;
use books::limits::{MOST_CHECKS, MOST_FLOPS};
use period::Period;

// The shortest period of a book, with its lowest assignment in the list. A list of another length than the number of flip-flops stays as it was.
pub fn schedule<B: Book>(book: &B, domains: &mut [u8]) -> Result<Period, ScheduleFault>
    ensures { ScheduleCall (B.meaning book.now) domains.old (schedule_answer result) domains.new }
{
    let flops = book.flops();
    if domains.len() != flops {
        return Err(ScheduleFault::Length);
    }
    let best = raise(book);
    domains.copy_from_slice(&best.domains[..flops]);
    Ok(best.period)
}

// The shortest period so far and the assignment of it, with domain 0 past the last flip-flop.
// An array, as an assignment in the definitions is a list with zeros behind it: no length stands beside it, and nothing is allocated.
#[derive(Clone, Copy)]
struct Best {
    period: Period,
    domains: [u8; MOST_FLOPS],
}

impl Best {
    // Takes an assignment of a shorter period.
    fn improve(&mut self, period: Period, domains: &[u8; MOST_FLOPS])
        ensures { Improved self.old period domains.now self.new }
    {
        if period < self.period {
            *self = Best {
                period,
                domains: *domains,
            };
        }
    }
}

// The longest of the floor and some needs, with the end of a check that needs so long, or none where the floor is as long.
#[derive(Clone, Copy)]
struct Worst {
    period: Period,
    end: Option<usize>,
}

impl Worst {
    // Takes a need that is longer.
    fn worsen(&mut self, need: Need)
        ensures { Worsened self.old need self.new }
    {
        if need.period > self.period {
            *self = Worst {
                period: need.period,
                end: Some(need.end),
            };
        }
    }

    // Raises the domain of the end by one, unless there is none or it is in the last of `count` domains; says whether it did.
    fn rise(self, domains: &mut [u8], count: usize) -> bool
        requires there { ForSome self.end (λ e. e < length domains.old) }
        requires few { count ≤ most_domains }
        ensures { Risen self.end count domains.old domains.new result }
    {
        match self.end {
            Some(end) => step_up(domains, end, count),
            None => false,
        }
    }
}

// From all zeros the end of a worst check is raised, as long as it can be; the first assignment of the shortest period stays.
fn raise<B: Book>(book: &B) -> Best
    ensures { Raised (B.meaning book.now) (fraction result.period) result.domains }
{
    // Asked once: a kind of book may have to look for its answer.
    let floor = book.floor();
    let count = book.domains();
    let mut current = [0; MOST_FLOPS];
    let mut best = Best {
        period: Period::longest(),
        domains: current,
    };
    // A rule of the project: the loop breaks, with the best, from inside the scan for a worst check. The scan goes by place, since a book has no iterator.
    'raise: loop {
        let mut worst = Worst {
            period: floor,
            end: None,
        };
        // At the place past the last check there is no need, and the scan is over.
        for place in 0..=MOST_CHECKS {
            match need_under(book, place, &current) {
                Some(need) => worst.worsen(need),
                None => {
                    best.improve(worst.period, &current);
                    if !worst.rise(&mut current, count) {
                        break 'raise best;
                    }
                    continue 'raise;
                }
            }
        }
    }
}
