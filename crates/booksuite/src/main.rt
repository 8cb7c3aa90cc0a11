// Reads many table books as decimal numbers, fills, schedules and settles each, and does the same over a bound book of the same checks in another order.
//
// A book is read so, with every count before what it counts:
//   flip-flops, domains, floor, tables (rows (figures)), checks (start, end, table), a place where the checks are cut in two, periods (P, q)
#![tactic(auto)]

mod numbers;
mod reports;

use crate::numbers::{Case, FromNumbers, Numbers};
use crate::reports::report_case;
use std::io::Read;

fn run(rt: &HostRuntime) -> anyhow::Result<()> {
    let heap = rt.alloc();
    let mut input = Vec::new(heap);
    rt.stdin().read_to_end(&mut input)?;
    let mut numbers = Numbers::new(input.as_slice());
    for _ in 0..numbers.number() {
        let case = Case::read(&mut numbers, heap)?;
        report_case(rt, heap, &case)?;
    }
    Ok(())
}

fn main(rt: HostRuntime) -> anyhow::Result<()> {
    run(&rt)
}
