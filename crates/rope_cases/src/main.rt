// Writes what drafts, trees and the scratched set answer to each command of standard input.
#![tactic(auto)]

mod bench;
mod command;
mod strips;
mod words;

use bench::Bench;
use command::Command;
use intake::Records;
use std::io::{Read, Write};

// The same loop stands in `line_cases`; one function for both would be public, and no contract can say what it prints.
fn main(rt: HostRuntime) -> anyhow::Result<()> {
    let mut input = Vec::new(rt.alloc());
    rt.stdin().read_to_end(&mut input)?;
    let mut bench = Bench::new(rt.alloc())?;
    for record in Records::of(&input) {
        let command = std::str::from_utf8(record)?.parse::<Command>()?;
        let text = bench.answer(command)?;
        write!(rt.stdout(), "{text}\r\n")?;
    }
    Ok(())
}
