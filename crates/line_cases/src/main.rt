// Writes what the reader and the writer of lines answer to each command of standard input.
// A command is a letter and what stands behind it: `R` a record to read, `A` an amount to read, `W` the values of a line to write.
#![tactic(auto)]

use anyhow::{Context, anyhow};
use base::{Cents, Refusal};
use intake::Records;
use lines::{Line, LineFault, Pool, Race, Runner, Terminal};
use records::{read_amount, read_line, write_line};
use std::alloc::{AllocError, Global};
use std::io::{Read, Write};

// The number of a refusal.
fn refused(heap: Global, refusal: Refusal) -> Result<String, AllocError> {
    let number = refusal.number();
    format!(in heap; "refused,{number}")
}

// The number of a fault's refusal, and the place that the fault carries.
fn faulty(heap: Global, fault: LineFault) -> Result<String, AllocError> {
    let number = Refusal::from(fault).number();
    match fault {
        LineFault::Shape => format!(in heap; "refused,{number}"),
        LineFault::Field { place } | LineFault::Amount { place, .. } => {
            format!(in heap; "refused,{number},{place}")
        }
    }
}

// The record that the writer makes of a line, or its refusal.
fn written(heap: Global, line: &Line) -> anyhow::Result<String> {
    match write_line(line) {
        Ok(bytes) => Ok(String::from_str(heap, std::str::from_utf8(&bytes)?)?),
        Err(refusal) => Ok(refused(heap, refusal)?),
    }
}

// The line that a record says, with the record that the writer makes of it, or the fault.
fn read(heap: Global, row: &[u8]) -> anyhow::Result<String> {
    match read_line(row) {
        Ok(line) => {
            let record = written(heap, &line)?;
            Ok(format!(in heap; "{line}={record}")?)
        }
        Err(fault) => Ok(faulty(heap, fault)?),
    }
}

// The cents that an amount says, or the fault.
fn amount(heap: Global, bytes: &[u8]) -> Result<String, AllocError> {
    match read_amount(bytes) {
        Ok(amount) => amount.value().to_string(heap),
        Err(fault) => refused(heap, Refusal::from(fault)),
    }
}

// The line of five words: terminal, race, the pool's letter, runner and cents.
fn line_of(words: &str) -> anyhow::Result<Line> {
    let mut words = words.split(' ');
    let terminal = words.next().context("no terminal")?.parse::<u16>()?;
    let race = words.next().context("no race")?.parse::<u8>()?;
    let letter = words
        .next()
        .context("no pool")?
        .chars()
        .next()
        .context("no letter")?;
    let pool = Pool::try_from(letter).ok().context("another letter")?;
    let runner = words.next().context("no runner")?.parse::<u8>()?;
    let cents = words.next().context("no cents")?.parse::<i64>()?;
    Ok(Line {
        terminal: Terminal(terminal),
        race: Race(race),
        pool,
        runner: Runner(runner),
        amount: Cents::new(cents),
    })
}

fn answer(heap: Global, command: &[u8]) -> anyhow::Result<String> {
    match command {
        [b'R', row @ ..] => read(heap, row),
        [b'A', bytes @ ..] => Ok(amount(heap, bytes)?),
        [b'W', words @ ..] => written(heap, &line_of(std::str::from_utf8(words)?)?),
        _ => Err(anyhow!("another letter than R, A and W")),
    }
}

// The same loop stands in `rope_cases`; one function for both would be public, and no contract can say what it prints.
fn main(rt: HostRuntime) -> anyhow::Result<()> {
    let mut input = Vec::new(rt.alloc());
    rt.stdin().read_to_end(&mut input)?;
    for command in Records::of(&input) {
        let text = answer(rt.alloc(), command)?;
        write!(rt.stdout(), "{text}\r\n")?;
    }
    Ok(())
}
