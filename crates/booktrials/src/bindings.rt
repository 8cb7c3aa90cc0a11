// Books bound into one: what the bound book answers, how many checks two books may have, and that the same checks spread over two books get the same.
use crate::answers::{Answer, BEFORE, Settlement, check_answers, check_schedule, told};
use crate::cases::{THREE, TWO};
use crate::drafts::{Draft, Reading, check_counts, check_readings, filled, repeated};
use books::Book;
use boundbook::{Bound, TooManyChecks, bind};
use engine::{ScheduleFault, SettleFault, schedule_both, settle_both};
use std::alloc::Global;
use std::fmt::Debug;
use std::process::Abort;
use std::test::Fail;
use tablebook::TableBook;

// Three flip-flops, three domains.
const CHAIN: Draft = Draft {
    flops: 3,
    domains: 3,
    floor: 2,
    tables: &[THREE],
    entries: &[(0, 1, 0), (1, 2, 0)],
};

// Two flip-flops, two domains.
const LOOP: Draft = Draft {
    flops: 2,
    domains: 2,
    floor: 5,
    tables: &[TWO, &[&[5, 3], &[5, 3]]],
    entries: &[(0, 1, 0), (1, 0, 1)],
};

// The larger number of flip-flops, the smaller number of domains, the larger floor.
const JOINED: Draft = Draft {
    flops: 3,
    domains: 2,
    floor: 5,
    tables: &[],
    entries: &[(0, 1, 0), (1, 2, 0), (0, 1, 0), (1, 0, 1)],
};

// Across the seam, and beyond the last domain and the last check.
const JOINED_READ: &[Reading] = &[
    (0, Some(0), Some(1), (1, 1), Some((9, 1))),
    (1, Some(1), Some(2), (0, 1), Some((8, 1))),
    (1, Some(1), Some(2), (0, 2), None),
    (1, Some(1), Some(2), (2, 0), None),
    (2, Some(0), Some(1), (0, 1), Some((4, 1))),
    (3, Some(1), Some(0), (1, 0), Some((5, 1))),
    (4, None, None, (0, 0), None),
];

// The books in the other order.
const TURNED_READ: &[Reading] = &[
    (1, Some(1), Some(0), (0, 1), Some((3, 1))),
    (2, Some(0), Some(1), (1, 0), Some((12, 1))),
    (3, Some(1), Some(2), (2, 2), None),
    (4, None, None, (0, 0), None),
];

// In two domains the chain needs 8 or more where 1 has risen, and 9 with 2 risen too.
const JOINED_SETTLED: &[Settlement] = &[
    (10, 1, Ok((10, 1)), &[0, 0, 0]),
    (9, 1, Ok((9, 1)), &[0, 1, 1]),
    (8, 1, Err(13), &[0, 0, 0]),
    (4, 1, Err(13), &[0, 0, 0]),
    (9, 1, Err(14), &[9, 9]),
    (9, 0, Err(12), &[9, 9, 9]),
];

fn bound_drafts(
    heap: Global,
    first: Draft,
    second: Draft,
) -> Result<Bound<TableBook, TableBook>, Fail> {
    let one = filled(heap, first, false)?;
    let other = filled(heap, second, false)?;
    bind(one, other).map_err(|_| Fail::new("too many checks"))
}

fn check_joined<B: Book>(
    rt: &impl Abort,
    heap: Global,
    name: &str,
    book: &B,
    readings: &[Reading],
) -> Result<(), Fail> {
    check_counts(rt, name, book, JOINED);
    check_readings(rt, book, readings);
    check_answers(rt, heap, name, book, Ok((9, 1)), &[0, 1, 1], JOINED_SETTLED)
}

#[test]
fn joined(rt: HostRuntime) -> Result<(), Fail> {
    let book = bound_drafts(rt.alloc(), CHAIN, LOOP)?;
    check_joined(&rt, rt.alloc(), "joined", &book, JOINED_READ)
}

#[test]
fn turned(rt: HostRuntime) -> Result<(), Fail> {
    let book = bound_drafts(rt.alloc(), LOOP, CHAIN)?;
    check_joined(&rt, rt.alloc(), "turned", &book, TURNED_READ)
}

// All checks go from 0 to 1 and need 4 at 0 1.
const MOST_READ: &[Reading] = &[
    (65_535, Some(0), Some(1), (0, 1), Some((4, 1))),
    (65_536, Some(0), Some(1), (0, 1), Some((4, 1))),
    (99_999, Some(0), Some(1), (0, 1), Some((4, 1))),
    (100_000, None, None, (0, 1), None),
];

fn check_most<B: Book>(rt: &impl Abort, heap: Global, book: &B) -> Result<(), Fail> {
    assert_eq!(rt; book.checks(), 100_000);
    check_readings(rt, book, MOST_READ);
    check_schedule(rt, heap, "most", book, Ok((4, 1)), &[0, 1])
}

// Binds a book of 65,536 checks and one of so many.
fn bind_repeated(
    heap: Global,
    count: usize,
) -> Result<Result<Bound<TableBook, TableBook>, TooManyChecks<TableBook, TableBook>>, Fail> {
    let first = repeated(heap, 65_536)?;
    let second = repeated(heap, count)?;
    Ok(bind(first, second))
}

// 100,000 checks together.
#[test]
fn most_checks(rt: HostRuntime) -> Result<(), Fail> {
    let book = bind_repeated(rt.alloc(), 34_464)?.map_err(|_| Fail::new("refused"))?;
    check_most(&rt, rt.alloc(), &book)
}

// Both books come back.
fn check_back(
    rt: &impl Abort,
    heap: Global,
    back: &TooManyChecks<TableBook, TableBook>,
) -> Result<(), Fail> {
    let counts = (back.number(), back.first.checks(), back.second.checks());
    assert_eq!(rt; counts, (19, 65_536, 34_465));
    check_schedule(rt, heap, "first", &back.first, Ok((4, 1)), &[0, 1])?;
    check_schedule(rt, heap, "second", &back.second, Ok((4, 1)), &[0, 1])
}

// 100,001 checks together.
#[test]
fn one_check_too_many(rt: HostRuntime) -> Result<(), Fail> {
    match bind_repeated(rt.alloc(), 34_465)? {
        Ok(_) => Err(Fail::new("bound")),
        Err(back) => check_back(&rt, rt.alloc(), &back),
    }
}

// Four checks in one book, and the same spread over two, in another order and one of them twice.
const WHOLE: Draft = Draft {
    flops: 4,
    domains: 3,
    floor: 1,
    tables: &[THREE, &[&[9, 6, 6], &[9, 7, 6], &[11, 8, 6]]],
    entries: &[(0, 1, 0), (1, 2, 1), (2, 3, 0), (3, 1, 1)],
};

const ONE_PART: Draft = Draft {
    floor: 0,
    entries: &[(3, 1, 1), (0, 1, 0)],
    ..WHOLE
};

const OTHER_PART: Draft = Draft {
    entries: &[(2, 3, 0), (1, 2, 1), (0, 1, 0)],
    ..WHOLE
};

// The two numbers that name a period, the answer of both books and both lists after it.
type Both = (u64, u64, Answer, [u8; 4]);

// Below 10, 1 has to rise for the check from 0; then 2 and 3 follow as far as the period asks.
const WHOLE_SETTLED: &[Both] = &[
    (10, 1, Ok((10, 1)), [0, 0, 0, 0]),
    (9, 1, Ok((9, 1)), [0, 1, 0, 1]),
    (8, 1, Ok((8, 1)), [0, 1, 1, 2]),
    (7, 1, Ok((7, 1)), [0, 2, 2, 2]),
    (6, 1, Err(13), [0, 0, 0, 0]),
    (1, 2, Err(13), [0, 0, 0, 0]),
    (7, 4_096, Err(12), [9, 9, 9, 9]),
];

// A call on two books answers the same of both, and leaves the same list.
fn check_pair<N: Debug, F: FnOnce(&mut [u8], &mut [u8]) -> (Answer, Answer)>(
    rt: &impl Abort,
    name: &N,
    call: F,
    answer: Answer,
    after: [u8; 4],
)
    requires { F.IsAlwaysCallable call }
{
    let mut one = [BEFORE; 4];
    let mut other = [BEFORE; 4];
    let answers = call(&mut one, &mut other);
    assert_eq!(rt;
        (answers, one, other),
        ((answer, answer), after, after),
        "{name:?}"
    );
}

fn check_both_settled<A: Book, B: Book>(rt: &impl Abort, first: &A, second: &B, case: &Both) {
    let (numerator, denominator, answer, after) = *case;
    let call = |one: &mut [u8], other: &mut [u8]| {
        let (here, there) = settle_both(first, second, numerator, denominator, one, other);
        (
            told(here, SettleFault::number),
            told(there, SettleFault::number),
        )
    };
    check_pair(rt, &numerator, call, answer, after);
}

fn check_both_scheduled<A: Book, B: Book>(rt: &impl Abort, first: &A, second: &B) {
    let call = |one: &mut [u8], other: &mut [u8]| {
        let (here, there) = schedule_both(first, second, one, other);
        (
            told(here, ScheduleFault::number),
            told(there, ScheduleFault::number),
        )
    };
    check_pair(rt, &"scheduled", call, Ok((7, 1)), [0, 2, 2, 2]);
}

fn check_both<A: Book, B: Book>(rt: &impl Abort, first: &A, second: &B) {
    check_both_scheduled(rt, first, second);
    for case in WHOLE_SETTLED {
        check_both_settled(rt, first, second, case);
    }
}

fn check_spread(rt: &impl Abort, heap: Global, whole: &TableBook) -> Result<(), Fail> {
    let parts = bound_drafts(heap, ONE_PART, OTHER_PART)?;
    check_both(rt, whole, &parts);
    Ok(())
}

#[test]
fn spread(rt: HostRuntime) -> Result<(), Fail> {
    let whole = filled(rt.alloc(), WHOLE, false)?;
    check_spread(&rt, rt.alloc(), &whole)
}
