// The engine and the bound book take a kind of book that they do not know: the constant book, alone and bound with a table book.
use crate::answers::{Settlement, check_answers, check_schedule};
use crate::cases::PAIR;
use crate::constant::ConstantBook;
use crate::drafts::{Reading, check_readings, filled};
use boundbook::bind;
use period::Period;
use std::test::Fail;

// Both checks, one beyond the last domain, and none beyond the last check.
const READ: &[Reading] = &[
    (0, Some(0), Some(1), (0, 1), Some((28, 5))),
    (1, Some(1), Some(2), (1, 0), Some((28, 5))),
    (1, Some(1), Some(2), (2, 0), None),
    (2, None, None, (0, 0), None),
];

// All needs are 28/5.
const CONSTANT: &[Settlement] = &[
    (6, 1, Ok((6, 1)), &[0, 0, 0]),
    (28, 5, Ok((28, 5)), &[0, 0, 0]),
    (56, 10, Ok((28, 5)), &[0, 0, 0]),
    (11, 2, Err(13), &[0, 0, 0]),
    (28, 5, Err(14), &[9, 9]),
];

// The check of the table book wants flip-flop 1 in domain 1 where the period is below 10.
const BOUND: &[Settlement] = &[
    (10, 1, Ok((10, 1)), &[0, 0, 0]),
    (6, 1, Ok((6, 1)), &[0, 1, 0]),
    (28, 5, Ok((28, 5)), &[0, 1, 0]),
    (11, 2, Err(13), &[0, 0, 0]),
];

fn named(numerator: u64, denominator: u64) -> Result<Period, Fail> {
    Period::named(numerator, denominator).map_err(|_| Fail::new("no period"))
}

fn constant(flops: usize, domains: usize) -> Result<ConstantBook, Fail> {
    ConstantBook::new(flops, domains, named(28, 5)?).ok_or_else(|| Fail::new("no book"))
}

fn fits(flops: usize, domains: usize) -> bool {
    ConstantBook::new(flops, domains, Period::zero()).is_some()
}

// At most 256 flip-flops, and 1 to 8 domains.
#[test]
fn sizes(rt: HostRuntime) {
    assert!(rt; fits(0, 1) && fits(256, 8));
    assert!(rt; !fits(257, 8) && !fits(256, 9) && !fits(256, 0) && !fits(usize::MAX, usize::MAX));
}

// Checks from 0 to 1 and from 1 to 2.
#[test]
fn alone(rt: HostRuntime) -> Result<(), Fail> {
    let book = constant(3, 2)?;
    check_readings(&rt, &book, READ);
    check_answers(
        &rt,
        rt.alloc(),
        "alone",
        &book,
        Ok((28, 5)),
        &[0, 0, 0],
        CONSTANT,
    )
}

// One flip-flop has no next one.
#[test]
fn no_check(rt: HostRuntime) -> Result<(), Fail> {
    let book = constant(1, 8)?;
    check_schedule(&rt, rt.alloc(), "no check", &book, Ok((0, 1)), &[0])
}

// A constant book of three flip-flops and four domains, and a table book of two flip-flops and two domains.
#[test]
fn bound(rt: HostRuntime) -> Result<(), Fail> {
    let first = constant(3, 4)?;
    let table = filled(rt.alloc(), PAIR, false)?;
    let book = bind(first, table).map_err(|_| Fail::new("too many checks"))?;
    check_answers(
        &rt,
        rt.alloc(),
        "bound",
        &book,
        Ok((28, 5)),
        &[0, 1, 0],
        BOUND,
    )
}

// As text a period has its lowest terms.
#[test]
fn text(rt: HostRuntime) -> Result<(), Fail> {
    let period = named(56, 10)?;
    let shown = format!(in rt.alloc(); "{period}")?;
    assert_eq!(rt; shown.as_str(), "28/5");
    Ok(())
}
