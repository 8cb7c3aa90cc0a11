// What the engine answers for a book, line by line.
use crate::numbers::Case;
use books::Book;
use boundbook::bind;
use engine::{ScheduleFault, SettleFault, schedule_both, settle_both};
use period::Period;
use std::alloc::Global;
use tablebook::{FillFault, Sheet, TableBook, TableCheck};

// What a list holds that no call has written.
const UNTOUCHED: u8 = 9;

fn print_list(rt: &HostRuntime, list: &[u8]) -> anyhow::Result<()> {
    for domain in list {
        print!(rt; " {domain}")?;
    }
    println!(rt; "")?;
    Ok(())
}

// What a call answers, a period or the number of a refusal, and the list after it.
fn print_answer(
    rt: &HostRuntime,
    call: &str,
    answer: Result<Period, u8>,
    list: &[u8],
) -> anyhow::Result<()> {
    match answer {
        Ok(period) => print!(rt; "{call} {period}")?,
        Err(number) => print!(rt; "{call} refused {number}")?,
    }
    print_list(rt, list)
}

// What a call answers for two books, and their lists after it.
fn print_both<E: Drop, F: Fn(E) -> u8>(
    rt: &HostRuntime,
    call: &str,
    answers: (Result<Period, E>, Result<Period, E>),
    number: F,
    lists: (&[u8], &[u8]),
) -> anyhow::Result<()>
    requires { F.IsAlwaysCallable number }
{
    let (answer, again) = answers;
    let (one, other) = lists;
    print_answer(rt, call, answer.map_err(|fault| number(fault)), one)?;
    print_answer(rt, call, again.map_err(|fault| number(fault)), other)
}

fn report_books<A: Book, B: Book>(
    rt: &HostRuntime,
    heap: Global,
    first: &A,
    second: &B,
    periods: &[(u64, u64)],
) -> anyhow::Result<()> {
    let mut one_list = vec![in heap; UNTOUCHED; first.flops()]?;
    let mut other_list = vec![in heap; UNTOUCHED; second.flops()]?;
    let one = one_list.as_mut_slice();
    let other = other_list.as_mut_slice();
    let answers = schedule_both(first, second, one, other);
    print_both(rt, "schedule", answers, ScheduleFault::number, (one, other))?;
    for &(numerator, denominator) in periods {
        one.fill(UNTOUCHED);
        other.fill(UNTOUCHED);
        let answers = settle_both(first, second, numerator, denominator, one, other);
        print_both(rt, "settle", answers, SettleFault::number, (one, other))?;
    }
    Ok(())
}

fn fill(
    book: &mut TableBook,
    case: &Case,
    checks: &[TableCheck],
    heap: Global,
) -> Result<(), FillFault> {
    let sheet = Sheet {
        flops: case.flops,
        domains: case.domains,
        floor: case.floor,
        tables: case.tables.as_slice(),
        checks,
    };
    book.fill(sheet, heap)
}

// The later checks stand first in the bound book.
pub fn report_case(rt: &HostRuntime, heap: Global, case: &Case) -> anyhow::Result<()> {
    let mut whole = TableBook::new(heap);
    let checks = case.checks.as_slice();
    if let Err(fault) = fill(&mut whole, case, checks, heap) {
        match fault.number() {
            Some(number) => println!(rt; "refused {number}")?,
            None => println!(rt; "no memory")?,
        }
        return Ok(());
    }
    println!(rt; "filled")?;
    let cut = case.cut.min(checks.len());
    let mut front = TableBook::new(heap);
    let mut back = TableBook::new(heap);
    let filled = fill(&mut front, case, &checks[..cut], heap).is_ok()
        && fill(&mut back, case, &checks[cut..], heap).is_ok();
    if !filled {
        println!(rt; "not cut")?;
        return Ok(());
    }
    match bind(back, front) {
        Ok(both) => report_books(rt, heap, &whole, &both, case.periods.as_slice()),
        Err(too_many) => {
            let number = too_many.number();
            println!(rt; "refused {number}")?;
            Ok(())
        }
    }
}
