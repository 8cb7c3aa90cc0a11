// Reads a dump from standard input and prints the account of it.
#![tactic(auto)]

use account::{MOST_BYTES, account};
use std::io::Read;

// Enough to tell that a text is too long.
const READ_LIMIT: u64 = MOST_BYTES as u64 + 1;

fn run(rt: &HostRuntime) -> anyhow::Result<()> {
    let heap = rt.alloc();
    let mut text = Vec::new(heap);
    rt.stdin().take(READ_LIMIT).read_to_end(&mut text)?;
    rt.print(account(&text, heap)?)?;
    Ok(())
}

fn main(rt: HostRuntime) -> anyhow::Result<()> {
    run(&rt)
}
