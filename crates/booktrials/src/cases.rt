// Table books that are scheduled and settled.
use crate::answers::{Answer, Settlement, check_answers};
use crate::drafts::{Draft, Table, check_counts, filled};
use std::alloc::Global;
use std::process::Abort;
use std::test::Fail;
use tablebook::TableBook;

// A name, a sheet, the answer of scheduling, the list after it, and settlements.
type Case = (
    &'static str,
    Draft,
    Answer,
    &'static [u8],
    &'static [Settlement],
);

pub const TWO: Table = &[&[10, 4], &[12, 10]];

// The need is by the end alone.
pub const BY_END: Table = &[&[10, 5], &[10, 5]];

// The need is by the start alone.
pub const BY_START: Table = &[&[6, 6], &[7, 7]];

// With equal domains of start and end: 10, 9, 7.
pub const THREE: Table = &[&[10, 8, 5], &[12, 9, 6], &[14, 13, 7]];

// One check from flip-flop 0 to flip-flop 1. By domains its need is 00: 10, 01: 4, 10: 12, 11: 10.
pub const PAIR: Draft = Draft {
    flops: 2,
    domains: 2,
    floor: 0,
    tables: &[TWO],
    entries: &[(0, 1, 0)],
};

// Lists are 9 before a call: those that stay 9 were not written.
const PAIR_SETTLED: &[Settlement] = &[
    (40_000_000_000, 1, Ok((40_000_000_000, 1)), &[0, 0]),
    (12, 1, Ok((12, 1)), &[0, 0]),
    (10, 1, Ok((10, 1)), &[0, 0]),
    (20, 2, Ok((10, 1)), &[0, 0]),
    (9, 1, Ok((9, 1)), &[0, 1]),
    (41, 10, Ok((41, 10)), &[0, 1]),
    (4, 1, Ok((4, 1)), &[0, 1]),
    (8, 2, Ok((4, 1)), &[0, 1]),
    (39, 10, Err(13), &[0, 0]),
    (3, 1, Err(13), &[0, 0]),
    (0, 1, Err(13), &[0, 0]),
    // no period
    (1, 0, Err(12), &[9, 9]),
    (40_000_000_001, 1, Err(12), &[9, 9]),
    (1, 4_096, Err(12), &[9, 9]),
    // lists of other lengths
    (4, 1, Err(14), &[]),
    (4, 1, Err(14), &[9]),
    (4, 1, Err(14), &[9, 9, 9]),
    // 14 before 13, 12 before both
    (3, 1, Err(14), &[9]),
    (1, 0, Err(12), &[9]),
];

const ONE_CHECK: &[Case] = &[
    ("one check", PAIR, Ok((4, 1)), &[0, 1], PAIR_SETTLED),
    ("a list too short", PAIR, Err(14), &[9], &[]),
    ("a list too long", PAIR, Err(14), &[9, 9, 9], &[]),
    ("an empty list", PAIR, Err(14), &[], &[]),
    // 0 0 meets the floor
    (
        "floor above every need",
        Draft { floor: 13, ..PAIR },
        Ok((13, 1)),
        &[0, 0],
        &[
            (13, 1, Ok((13, 1)), &[0, 0]),
            (12, 1, Err(13), &[0, 0]),
            (10, 1, Err(13), &[0, 0]),
        ],
    ),
    // 10 is above the floor and 4 is not
    (
        "floor between two needs",
        Draft { floor: 5, ..PAIR },
        Ok((5, 1)),
        &[0, 1],
        &[(5, 1, Ok((5, 1)), &[0, 1]), (4, 1, Err(13), &[0, 0])],
    ),
    (
        "no checks",
        Draft {
            flops: 3,
            floor: 7,
            tables: &[],
            entries: &[],
            ..PAIR
        },
        Ok((7, 1)),
        &[0, 0, 0],
        &[
            (15, 2, Ok((15, 2)), &[0, 0, 0]),
            (7, 1, Ok((7, 1)), &[0, 0, 0]),
            (13, 2, Err(13), &[0, 0, 0]),
        ],
    ),
    (
        "one domain",
        Draft {
            domains: 1,
            tables: &[&[&[9]]],
            ..PAIR
        },
        Ok((9, 1)),
        &[0, 0],
        &[(9, 1, Ok((9, 1)), &[0, 0]), (8, 1, Err(13), &[0, 0])],
    ),
];

// Three flip-flops in two domains.
const TRIO: Draft = Draft {
    flops: 3,
    tables: &[TWO, BY_END],
    ..PAIR
};

const FORK: &[Settlement] = &[
    (10, 1, Ok((10, 1)), &[0, 0, 0]),
    (9, 1, Ok((9, 1)), &[0, 1, 1]),
    (3, 1, Err(13), &[0, 0, 0]),
];

// Below 10, 1 has to rise for the first need and 2 for the second.
const ONE_AFTER_ANOTHER: &[Settlement] = &[
    (10, 1, Ok((10, 1)), &[0, 0, 0]),
    (9, 1, Ok((9, 1)), &[0, 1, 1]),
    (5, 1, Ok((5, 1)), &[0, 1, 1]),
    (4, 1, Err(13), &[0, 0, 0]),
];

// Where 1 rises the second need is 12 or 10: nothing is gained.
const NOTHING_GAINED: &[Settlement] = &[
    (10, 1, Ok((10, 1)), &[0, 0, 0]),
    (9, 1, Err(13), &[0, 0, 0]),
];

// Two checks that are worst together.
const EQUAL_WORST: &[Case] = &[
    (
        "fork",
        Draft {
            entries: &[(0, 1, 0), (0, 2, 0)],
            ..TRIO
        },
        Ok((4, 1)),
        &[0, 1, 1],
        FORK,
    ),
    (
        "two tables",
        Draft {
            entries: &[(0, 1, 0), (1, 2, 1)],
            ..TRIO
        },
        Ok((5, 1)),
        &[0, 1, 1],
        ONE_AFTER_ANOTHER,
    ),
    (
        "one table",
        Draft {
            entries: &[(0, 1, 0), (1, 2, 0)],
            ..TRIO
        },
        Ok((10, 1)),
        &[0, 0, 0],
        NOTHING_GAINED,
    ),
];

// Two flip-flops in three domains.
const THREE_DOMAINS: Draft = Draft {
    flops: 2,
    domains: 3,
    floor: 0,
    tables: &[THREE],
    entries: &[],
};

const SHAPES: &[Case] = &[
    (
        "a check repeated",
        Draft {
            entries: &[(0, 1, 0), (0, 1, 0)],
            ..PAIR
        },
        Ok((4, 1)),
        &[0, 1],
        PAIR_SETTLED,
    ),
    // 10 and 6 at 00, 4 and 6 at 01
    (
        "two tables between two flip-flops",
        Draft {
            tables: &[TWO, BY_START],
            entries: &[(0, 1, 0), (0, 1, 1)],
            ..PAIR
        },
        Ok((6, 1)),
        &[0, 1],
        &[
            (10, 1, Ok((10, 1)), &[0, 0]),
            (6, 1, Ok((6, 1)), &[0, 1]),
            (5, 1, Err(13), &[0, 0]),
        ],
    ),
    // 10 in either domain
    (
        "to itself",
        Draft {
            flops: 1,
            entries: &[(0, 0, 0)],
            ..PAIR
        },
        Ok((10, 1)),
        &[0],
        &[(10, 1, Ok((10, 1)), &[0]), (9, 1, Err(13), &[0])],
    ),
    (
        "to itself, in three domains",
        Draft {
            flops: 1,
            entries: &[(0, 0, 0)],
            ..THREE_DOMAINS
        },
        Ok((7, 1)),
        &[2],
        &[
            (10, 1, Ok((10, 1)), &[0]),
            (9, 1, Ok((9, 1)), &[1]),
            (8, 1, Ok((8, 1)), &[2]),
            (6, 1, Err(13), &[0]),
        ],
    ),
    // 10 at 00 and 11, 12 else
    (
        "cycle",
        Draft {
            entries: &[(0, 1, 0), (1, 0, 0)],
            ..PAIR
        },
        Ok((10, 1)),
        &[0, 0],
        &[(10, 1, Ok((10, 1)), &[0, 0]), (9, 1, Err(13), &[0, 0])],
    ),
    // the two domains rise together
    (
        "cycle, in three domains",
        Draft {
            entries: &[(0, 1, 0), (1, 0, 0)],
            ..THREE_DOMAINS
        },
        Ok((7, 1)),
        &[2, 2],
        &[
            (10, 1, Ok((10, 1)), &[0, 0]),
            (9, 1, Ok((9, 1)), &[1, 1]),
            (8, 1, Ok((8, 1)), &[2, 2]),
            (6, 1, Err(13), &[0, 0]),
        ],
    ),
    // the first need is 10, 8 or 5 by the domain of 1, and 2 has to follow for the second
    (
        "chain, in three domains",
        Draft {
            flops: 3,
            entries: &[(0, 1, 0), (1, 2, 0)],
            ..THREE_DOMAINS
        },
        Ok((7, 1)),
        &[0, 2, 2],
        &[
            (10, 1, Ok((10, 1)), &[0, 0, 0]),
            (19, 2, Ok((19, 2)), &[0, 1, 1]),
            (9, 1, Ok((9, 1)), &[0, 1, 1]),
            (8, 1, Ok((8, 1)), &[0, 1, 2]),
            (15, 2, Ok((15, 2)), &[0, 2, 2]),
            (7, 1, Ok((7, 1)), &[0, 2, 2]),
            (6, 1, Err(13), &[0, 0, 0]),
        ],
    ),
];

// One domain, floor 0 and no flip-flop.
const NEW: Draft = Draft {
    flops: 0,
    domains: 1,
    floor: 0,
    tables: &[],
    entries: &[],
};

const NEW_SETTLED: &[Settlement] = &[
    (0, 1, Ok((0, 1)), &[]),
    (0, 5, Ok((0, 1)), &[]),
    (1, 4_095, Ok((1, 4_095)), &[]),
    (1, 0, Err(12), &[]),
    (0, 1, Err(14), &[9]),
];

// The checks in both orders get the same.
fn check_case(rt: &impl Abort, heap: Global, case: &Case, turned: bool) -> Result<(), Fail> {
    let (name, draft, answer, after, settlements) = *case;
    let book = filled(heap, draft, turned)?;
    check_answers(rt, heap, name, &book, answer, after, settlements)
}

fn check_cases(rt: &impl Abort, heap: Global, cases: &[Case]) -> Result<(), Fail> {
    for case in cases {
        check_case(rt, heap, case, false)?;
        check_case(rt, heap, case, true)?;
    }
    Ok(())
}

#[test]
fn one_check(rt: HostRuntime) -> Result<(), Fail> {
    check_cases(&rt, rt.alloc(), ONE_CHECK)
}

#[test]
fn equal_worst(rt: HostRuntime) -> Result<(), Fail> {
    check_cases(&rt, rt.alloc(), EQUAL_WORST)
}

#[test]
fn shapes(rt: HostRuntime) -> Result<(), Fail> {
    check_cases(&rt, rt.alloc(), SHAPES)
}

#[test]
fn new_book(rt: HostRuntime) -> Result<(), Fail> {
    let book = TableBook::new(rt.alloc());
    check_counts(&rt, "new", &book, NEW);
    check_answers(&rt, rt.alloc(), "new", &book, Ok((0, 1)), &[], NEW_SETTLED)
}
