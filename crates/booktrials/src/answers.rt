// What the engine answers, told by numbers, and what the list holds after it.
use crate::drafts::numbers;
use books::Book;
use engine::{ScheduleFault, SettleFault, schedule, settle};
use period::Period;
use std::alloc::Global;
use std::fmt::Debug;
use std::process::Abort;
use std::test::Fail;

// The two numbers of a period, or the number of a refusal.
pub type Answer = Result<(u64, u16), u8>;

// What a list holds before a call.
pub const BEFORE: u8 = 9;

// The two numbers that name a period, the answer of settling at it and the list after it, which is as long as the list before it.
pub type Settlement = (u64, u64, Answer, &'static [u8]);

// An answer of the engine, by its numbers.
pub fn told<E, F: FnOnce(E) -> u8>(answer: Result<Period, E>, number: F) -> Answer
    requires { F.IsAlwaysCallable number }
{
    answer.map(numbers).map_err(number)
}

// Makes a call with a list as long as the one that is to come out; what fails is told by the name.
pub fn check_call<N: Debug, F: FnOnce(&mut [u8]) -> Answer>(
    rt: &impl Abort,
    heap: Global,
    name: &N,
    call: F,
    answer: Answer,
    after: &[u8],
) -> Result<(), Fail>
    requires { F.IsAlwaysCallable call }
{
    let mut list = vec![in heap; BEFORE; after.len()]?;
    let found = call(list.as_mut_slice());
    assert_eq!(rt; (found, list.as_slice()), (answer, after), "{name:?}");
    Ok(())
}

pub fn check_schedule<B: Book>(
    rt: &impl Abort,
    heap: Global,
    name: &str,
    book: &B,
    answer: Answer,
    after: &[u8],
) -> Result<(), Fail> {
    let call = |list: &mut [u8]| told(schedule(book, list), ScheduleFault::number);
    check_call(rt, heap, &name, call, answer, after)
}

fn check_settlement<B: Book>(
    rt: &impl Abort,
    heap: Global,
    name: &str,
    book: &B,
    case: &Settlement,
) -> Result<(), Fail> {
    let (numerator, denominator, answer, after) = *case;
    let call = |list: &mut [u8]| {
        told(
            settle(book, numerator, denominator, list),
            SettleFault::number,
        )
    };
    check_call(rt, heap, &(name, numerator), call, answer, after)
}

pub fn check_settlements<B: Book>(
    rt: &impl Abort,
    heap: Global,
    name: &str,
    book: &B,
    cases: &[Settlement],
) -> Result<(), Fail> {
    for case in cases {
        check_settlement(rt, heap, name, book, case)?;
    }
    Ok(())
}

// What the engine answers to a book, and settlements.
pub fn check_answers<B: Book>(
    rt: &impl Abort,
    heap: Global,
    name: &str,
    book: &B,
    answer: Answer,
    after: &[u8],
    settlements: &[Settlement],
) -> Result<(), Fail> {
    check_schedule(rt, heap, name, book, answer, after)?;
    check_settlements(rt, heap, name, book, settlements)
}
