// The largest number of flip-flops and of domains.
use crate::answers::{Answer, check_call, check_schedule, told};
use crate::drafts::{fill_sheet, filled_by, tables_of};
use crate::fills::EIGHT;
use engine::{SettleFault, settle};
use std::alloc::{AllocError, Global};
use std::process::Abort;
use std::test::Fail;
use tablebook::{Sheet, TableBook, TableCheck};

// A numerator, the answer of settling at it, and the domain of each flip-flop but the first, which is in domain 0.
type Case = (u64, Answer, u8);

// The need is 100 less the domain of the end.
const CASES: &[Case] = &[
    (100, Ok((100, 1)), 0),
    (99, Ok((99, 1)), 1),
    (95, Ok((95, 1)), 5),
    (93, Ok((93, 1)), 7),
    (92, Err(13), 0),
];

// A check from each of 256 flip-flops to the next.
fn links(heap: Global) -> Result<Vec<TableCheck>, AllocError> {
    (0..255usize)
        .map(|start| TableCheck {
            start,
            end: start + 1,
            table: 0,
        })
        .collect(heap)
}

fn long_chain(heap: Global) -> Result<TableBook, Fail> {
    let tables = tables_of(heap, &[EIGHT])?;
    let checks = links(heap)?;
    let sheet = Sheet {
        flops: 256,
        domains: 8,
        floor: 0,
        tables: tables.as_slice(),
        checks: checks.as_slice(),
    };
    filled_by(heap, |book| fill_sheet(heap, book, sheet))
}

// The first flip-flop in domain 0 and each other one in this domain.
fn list_of(domain: u8) -> [u8; 256] {
    let mut list = [domain; 256];
    list[0] = 0;
    list
}

fn check_settled(rt: &impl Abort, heap: Global, book: &TableBook, case: &Case) -> Result<(), Fail> {
    let (numerator, answer, domain) = *case;
    let call = |list: &mut [u8]| told(settle(book, numerator, 1, list), SettleFault::number);
    check_call(rt, heap, &numerator, call, answer, &list_of(domain))
}

fn check_chain(rt: &impl Abort, heap: Global, book: &TableBook) -> Result<(), Fail> {
    check_schedule(rt, heap, "chain", book, Ok((93, 1)), &list_of(7))?;
    for case in CASES {
        check_settled(rt, heap, book, case)?;
    }
    Ok(())
}

#[test]
fn chain(rt: HostRuntime) -> Result<(), Fail> {
    let book = long_chain(rt.alloc())?;
    check_chain(&rt, rt.alloc(), &book)
}
