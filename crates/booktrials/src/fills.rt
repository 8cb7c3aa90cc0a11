// Sheets at the limits of a table book, one past them, and with tables that break a law. A book that refuses a sheet stays as it was.
use crate::answers::check_schedule;
use crate::cases::{PAIR, TWO};
use crate::drafts::{
    Draft, FILLED, Filling, Table, check_counts, fill, fill_repeated, filled, repeated,
};
use books::Book;
use std::alloc::Global;
use std::process::Abort;
use std::test::Fail;
use tablebook::TableBook;

// A name, a sheet and what filling a book with it answers.
type Case = (&'static str, Draft, Filling);

const BARE: Draft = Draft {
    tables: &[],
    entries: &[],
    ..PAIR
};

const ROW: &[u32] = &[100, 99, 98, 97, 96, 95, 94, 93];

// Eight domains: the need falls by one with each domain of the end.
pub const EIGHT: Table = &[ROW, ROW, ROW, ROW, ROW, ROW, ROW, ROW];

// Flip-flops, domains and the floor.
const COUNTS: &[Case] = &[
    ("no flip-flop", Draft { flops: 0, ..BARE }, FILLED),
    ("256 flip-flops", Draft { flops: 256, ..BARE }, FILLED),
    ("257 flip-flops", Draft { flops: 257, ..BARE }, Err(17)),
    (
        "flip-flops without end",
        Draft {
            flops: usize::MAX,
            ..BARE
        },
        Err(17),
    ),
    ("no domain", Draft { domains: 0, ..BARE }, Err(17)),
    ("1 domain", Draft { domains: 1, ..BARE }, FILLED),
    ("8 domains", Draft { domains: 8, ..BARE }, FILLED),
    (
        "8 domains with a table",
        Draft {
            domains: 8,
            tables: &[EIGHT],
            ..PAIR
        },
        FILLED,
    ),
    ("9 domains", Draft { domains: 9, ..BARE }, Err(17)),
    (
        "the largest floor",
        Draft {
            floor: 1_000_000_000,
            ..BARE
        },
        FILLED,
    ),
    (
        "a floor too large",
        Draft {
            floor: 1_000_000_001,
            ..BARE
        },
        Err(17),
    ),
];

// Two domains, but where it is said.
const TABLES: &[Case] = &[
    (
        "a row too many",
        Draft {
            tables: &[&[&[10, 4], &[12, 10], &[12, 10]]],
            ..PAIR
        },
        Err(17),
    ),
    (
        "a row too few",
        Draft {
            tables: &[&[&[10, 4]]],
            ..PAIR
        },
        Err(17),
    ),
    (
        "no row",
        Draft {
            tables: &[&[]],
            ..PAIR
        },
        Err(17),
    ),
    (
        "a column too many",
        Draft {
            tables: &[&[&[10, 4], &[12, 10, 10]]],
            ..PAIR
        },
        Err(17),
    ),
    (
        "a column too few",
        Draft {
            tables: &[&[&[10, 4], &[12]]],
            ..PAIR
        },
        Err(17),
    ),
    (
        "the second table of another size",
        Draft {
            tables: &[TWO, &[&[1]]],
            ..PAIR
        },
        Err(17),
    ),
    (
        "the largest figure",
        Draft {
            tables: &[&[&[10, 4], &[1_000_000_000, 10]]],
            ..PAIR
        },
        FILLED,
    ),
    (
        "a figure too large",
        Draft {
            tables: &[&[&[10, 4], &[1_000_000_001, 10]]],
            ..PAIR
        },
        Err(17),
    ),
];

// Flip-flops 0 and 1, table 0.
const ENTRIES: &[Case] = &[
    (
        "the last flip-flop at both ends",
        Draft {
            entries: &[(1, 1, 0)],
            ..PAIR
        },
        FILLED,
    ),
    (
        "no such start",
        Draft {
            entries: &[(0, 1, 0), (2, 1, 0)],
            ..PAIR
        },
        Err(17),
    ),
    (
        "no such end",
        Draft {
            entries: &[(0, 1, 0), (0, 2, 0)],
            ..PAIR
        },
        Err(17),
    ),
    (
        "no such table",
        Draft {
            entries: &[(0, 1, 0), (0, 1, 1)],
            ..PAIR
        },
        Err(17),
    ),
    (
        "no table",
        Draft {
            tables: &[],
            ..PAIR
        },
        Err(17),
    ),
    ("no flip-flop", Draft { flops: 0, ..PAIR }, Err(17)),
];

// 17 comes before 18.
const LAWS: &[Case] = &[
    (
        "a row rises",
        Draft {
            tables: &[&[&[10, 11], &[12, 12]]],
            ..PAIR
        },
        Err(18),
    ),
    (
        "the last row rises",
        Draft {
            tables: &[&[&[10, 10], &[12, 13]]],
            ..PAIR
        },
        Err(18),
    ),
    (
        "a column falls",
        Draft {
            tables: &[&[&[10, 4], &[9, 4]]],
            ..PAIR
        },
        Err(18),
    ),
    (
        "the last column falls",
        Draft {
            tables: &[&[&[10, 4], &[10, 3]]],
            ..PAIR
        },
        Err(18),
    ),
    (
        "a table that no check names",
        Draft {
            tables: &[TWO, &[&[10, 11], &[12, 12]]],
            ..PAIR
        },
        Err(18),
    ),
    (
        "all figures equal",
        Draft {
            tables: &[&[&[6, 6], &[6, 6]]],
            ..PAIR
        },
        FILLED,
    ),
    (
        "a row rises and the floor is too large",
        Draft {
            floor: 1_000_000_001,
            tables: &[&[&[10, 11], &[12, 12]]],
            ..PAIR
        },
        Err(17),
    ),
    (
        "a row rises and a check names no table",
        Draft {
            tables: &[&[&[10, 11], &[12, 12]]],
            entries: &[(0, 1, 1)],
            ..PAIR
        },
        Err(17),
    ),
    (
        "a row rises and the next table is too small",
        Draft {
            tables: &[&[&[10, 11], &[12, 12]], &[&[1]]],
            ..PAIR
        },
        Err(17),
    ),
];

// What the book holds before each sheet.
const HELD: Draft = Draft { floor: 3, ..PAIR };

fn check_fill(rt: &impl Abort, heap: Global, case: &Case) -> Result<(), Fail> {
    let (name, draft, filling) = *case;
    let mut book = filled(heap, HELD, false)?;
    let found = fill(heap, &mut book, draft, false);
    check_filled(rt, heap, name, &book, draft, found, filling)
}

// A book that took a sheet has its counts; one that refused it is as it was.
fn check_filled(
    rt: &impl Abort,
    heap: Global,
    name: &str,
    book: &TableBook,
    draft: Draft,
    found: Result<Filling, Fail>,
    filling: Filling,
) -> Result<(), Fail> {
    assert_eq!(rt; found?, filling, "{name}");
    if filling.is_ok() {
        check_counts(rt, name, book, draft);
        return Ok(());
    }
    check_counts(rt, name, book, HELD);
    check_schedule(rt, heap, name, book, Ok((4, 1)), &[0, 1])
}

fn check_fills(rt: &impl Abort, heap: Global, cases: &[Case]) -> Result<(), Fail> {
    for case in cases {
        check_fill(rt, heap, case)?;
    }
    Ok(())
}

#[test]
fn counts(rt: HostRuntime) -> Result<(), Fail> {
    check_fills(&rt, rt.alloc(), COUNTS)
}

#[test]
fn tables(rt: HostRuntime) -> Result<(), Fail> {
    check_fills(&rt, rt.alloc(), TABLES)
}

#[test]
fn entries(rt: HostRuntime) -> Result<(), Fail> {
    check_fills(&rt, rt.alloc(), ENTRIES)
}

#[test]
fn laws(rt: HostRuntime) -> Result<(), Fail> {
    check_fills(&rt, rt.alloc(), LAWS)
}

// Refused with one check too many, the book has as many as before.
#[test]
fn most_checks(rt: HostRuntime) -> Result<(), Fail> {
    let mut book = repeated(rt.alloc(), 65_536)?;
    let found = fill_repeated(rt.alloc(), &mut book, 65_537);
    check_most(&rt, rt.alloc(), &book, found)
}

fn check_most(
    rt: &impl Abort,
    heap: Global,
    book: &TableBook,
    found: Result<Filling, Fail>,
) -> Result<(), Fail> {
    assert_eq!(rt; (found?, book.checks()), (Err(17), 65_536));
    check_schedule(rt, heap, "refused", book, Ok((4, 1)), &[0, 1])
}
