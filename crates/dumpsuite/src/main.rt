// Reads many texts, with a separator between each two, and prints the account of each.
#![tactic(auto)]

use account::account;
use std::io::Read;

const SEPARATOR: u8 = b'~';

fn run(rt: &HostRuntime) -> anyhow::Result<()> {
    let heap = rt.alloc();
    let mut input = Vec::new(heap);
    rt.stdin().read_to_end(&mut input)?;
    for text in input.split(|byte| *byte == SEPARATOR) {
        rt.print(account(text, heap)?)?;
    }
    Ok(())
}

fn main(rt: HostRuntime) -> anyhow::Result<()> {
    run(&rt)
}
