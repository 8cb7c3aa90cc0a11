// Two books of any two kinds: where they have the same checks in any order, their answers agree. Two functions: one that took the call as a
// parameter could not call it on two kinds of book.
ghost use Rattle.period.specs.Periods.{written};
ghost use Rattle.engine.specs.Answers.{schedule_answer, settle_answer};
ghost use Rattle.engine.specs.Pairs.{BothScheduled, BothSettled};

use crate::faults::{ScheduleFault, SettleFault};
use crate::raising::schedule;
use crate::settling::settle;
use books::Book;
use period::Period;

// A book and its list stay two parameters: a struct of the two would be made for one call and taken apart in it.
pub fn schedule_both<A: Book, B: Book>(
    first: &A,
    second: &B,
    first_domains: &mut [u8],
    second_domains: &mut [u8],
) -> (Result<Period, ScheduleFault>, Result<Period, ScheduleFault>)
    ensures { BothScheduled (A.Book.meaning first.now) (B.Book.meaning second.now) first_domains.old second_domains.old (schedule_answer result.0) (schedule_answer result.1) first_domains.new second_domains.new }
{
    let one = schedule(first, first_domains);
    let other = schedule(second, second_domains);
    (one, other)
}

// Both at the period that two numbers name.
pub fn settle_both<A: Book, B: Book>(
    first: &A,
    second: &B,
    numerator: u64,
    denominator: u64,
    first_domains: &mut [u8],
    second_domains: &mut [u8],
) -> (Result<Period, SettleFault>, Result<Period, SettleFault>)
    ensures { BothSettled (A.Book.meaning first.now) (B.Book.meaning second.now) (written numerator denominator) first_domains.old second_domains.old (settle_answer result.0) (settle_answer result.1) first_domains.new second_domains.new }
{
    let one = settle(first, numerator, denominator, first_domains);
    let other = settle(second, numerator, denominator, second_domains);
    (one, other)
}
