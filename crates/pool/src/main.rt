// Reads bet lines from standard input and writes the report on them to standard output.
#![tactic(auto)]

use reports::report;
use std::io::{Read, Write};

fn main(rt: HostRuntime) -> anyhow::Result<()> {
    let mut input = Vec::new(rt.alloc());
    rt.stdin().read_to_end(&mut input)?;
    let text = report(rt.alloc(), &input)?;
    rt.stdout().write_all(text.as_bytes())?;
    Ok(())
}
