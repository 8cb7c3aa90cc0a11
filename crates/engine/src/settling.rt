// Settling: the lowest assignment that meets a named period.
ghost use Rattle.checks.specs.Calls.{SettleCall};
ghost use Rattle.checks.specs.Raises.{Settling};
ghost use Rattle.period.specs.Periods.{fraction, written};
ghost use Rattle.engine.specs.Answers.{settle_answer};
ghost use Rattle.engine.specs.Passes.{Passed, Tried};

use crate::faults::SettleFault;
use crate::lists::{need_under, step_up};
use books::Book;
use books::limits::MOST_CHECKS;
use period::Period;

// The period that two numbers name, with the lowest assignment that meets it in the list; all zeros where none meets it. A list of another
// length than the number of flip-flops stays as it was. The two numbers stand apart: no type holds them before they are tested here.
pub fn settle<B: Book>(
    book: &B,
    numerator: u64,
    denominator: u64,
    domains: &mut [u8],
) -> Result<Period, SettleFault>
    ensures { SettleCall (B.meaning book.now) (written numerator denominator) domains.old (settle_answer result) domains.new }
{
    let period = Period::named(numerator, denominator)?;
    if domains.len() != book.flops() {
        return Err(SettleFault::Length);
    }
    domains.fill(0);
    match meet(book, period, domains) {
        Ok(()) => Ok(period),
        Err(fault) => {
            domains.fill(0);
            Err(fault)
        }
    }
}

// From all zeros, passes until no check is above the period.
fn meet<B: Book>(book: &B, period: Period, domains: &mut [u8]) -> Result<(), SettleFault>
    requires { Settling (B.meaning book.now) (fraction period) domains.old }
    ensures { Tried (B.meaning book.now) (fraction period) domains.new result }
{
    if book.floor() > period {
        return Err(SettleFault::Unmeetable);
    }
    while pass(book, period, domains)? {}
    Ok(())
}

// One pass: each check above the period raises its end. Says whether there was one.
fn pass<B: Book>(book: &B, period: Period, domains: &mut [u8]) -> Result<bool, SettleFault>
    requires { Settling (B.meaning book.now) (fraction period) domains.old }
    ensures { Passed (B.meaning book.now) (fraction period) domains.old domains.new result }
{
    let count = book.domains();
    let mut raised = false;
    // No book has more checks, and past its last there is no need; it has no iterator over them.
    for place in 0..MOST_CHECKS {
        let Some(need) = need_under(book, place, domains) else {
            break;
        };
        if need.period > period {
            if !step_up(domains, need.end, count) {
                return Err(SettleFault::Unmeetable);
            }
            raised = true;
        }
    }
    Ok(raised)
}
