// Writes, for each file that standard input names, its name and the report on it.
#![tactic(auto)]

use reports::report;
use std::fs;
use std::io::Write;

fn main(rt: HostRuntime) -> anyhow::Result<()> {
    for line in rt.lines(rt.alloc()) {
        let name = line?;
        let input = fs::read(&rt, name.as_str())?;
        let text = report(rt.alloc(), &input)?;
        write!(rt.stdout(), "{name}\r\n{text}")?;
    }
    Ok(())
}
