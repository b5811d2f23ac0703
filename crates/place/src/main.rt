// Reads a book followed at once by a track from standard input, and prints the head line and the line of each mark.
#![tactic(auto)]

use lists::list;
use std::io::{Read, Write};

fn run(rt: &HostRuntime) -> anyhow::Result<()> {
    let mut input = Vec::new(rt.alloc());
    rt.stdin().read_to_end(&mut input)?;
    let lines = list(rt.alloc(), input.as_slice())?;
    rt.stdout().write_all(lines.as_slice())?;
    Ok(())
}

fn main(rt: HostRuntime) -> anyhow::Result<()> {
    run(&rt)
}
