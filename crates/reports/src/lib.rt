// The report on an input of bet lines: for each pool, how many lines it has and their total.
#![tactic(auto)]

ghost use Rattle.std.specs.Prelude.{length, IfOk, Some, string_bytes};
ghost use Rattle.intake.specs.Inputs.{CutInto, records};
ghost use Rattle.reports.specs.Summaries.{Tallied, BothTallied, Outcome, Summarizes};
ghost use Rattle.reports.specs.Reports.{row, text_of, Reports};

use base::{Cents, Refusal};
use intake::{IntakeFault, take_in};
use lines::{Line, Pool, Race, Runner, Terminal};
use std::alloc::{AllocError, Global};
use std::fmt;

// The most records that are taken from one input.
pub const MOST: usize = 1024;

// What a pool has taken: how many lines, and their total.
#[derive(Clone, Copy, PartialEq, Eq, Debug)]
pub struct PoolTally {
    pub pool: Pool,
    pub lines: usize,
    pub total: Cents,
}

impl PoolTally {
    // The lines of one pool, counted and added up.
    fn of(pool: Pool, lines: &[Line]) -> PoolTally
        ensures { Tallied pool lines.now result }
    {
        let total = lines.iter().filter(|line| line.pool == pool).fold(
            Cents::new(0),
            |total, line| total.wrapping_add(line.amount),
        );
        PoolTally {
            pool,
            lines: lines.iter().filter(|line| line.pool == pool).count(),
            total,
        }
    }
}

impl fmt::Display for PoolTally {
    ghost output = { λ t. Some (row t.pool t.lines t.total.cents) };

    fn fmt<W: fmt::Write>(&self, f: &mut fmt::Formatter<W>) -> fmt::Result {
        let PoolTally { pool, lines, total } = *self;
        write!(f, "{pool},{lines},{total}")
    }
}

// What the pools have taken.
#[derive(Clone, Copy, PartialEq, Eq, Debug)]
pub struct Takings {
    pub win: PoolTally,
    pub place: PoolTally,
}

impl Takings {
    // What the lines of an input come to.
    fn of(lines: &[Line]) -> Takings
        ensures { BothTallied lines.now result }
    {
        Takings {
            win: PoolTally::of(Pool::Win, lines),
            place: PoolTally::of(Pool::Place, lines),
        }
    }
}

// What is to be reported on an input: what the pools have taken, or why the input is refused.
#[derive(Clone, Copy, PartialEq, Eq, Debug)]
pub struct Summary(pub Result<Takings, IntakeFault>);

// The report: a header and a row for each pool, or one line that stands for a refused input.
impl fmt::Display for Summary {
    ghost output = { λ s. Some (text_of s) };

    fn fmt<W: fmt::Write>(&self, f: &mut fmt::Formatter<W>) -> fmt::Result {
        match self.0 {
            Ok(Takings { win, place }) => write!(f, "pool,lines,total\r\n{win}\r\n{place}\r\n"),
            Err(fault) => {
                let record = fault.record();
                let number = Refusal::from(fault).number();
                write!(f, "refused,{record},{number}\r\n")
            }
        }
    }
}

// What the pools have taken by an input whose lines are taken into a strip.
fn takings_of(strip: &mut [Line], input: &[u8]) -> Result<Takings, IntakeFault>
    ensures { Outcome (length strip.old) input.now result }
{
    let count = take_in(input, strip)?;
    Ok(Takings::of(&strip[..count]))
}

// What is to be reported on an input of at most `MOST` records. It asks for no memory and always answers.
// How the input is cut is said again, so that the contract can be read alone, here and at `report`.
#[tactic(auto, using(intake::proofs::Cutting::cut_records, intake::proofs::Cutting::cut_once, crate::proofs::Texts::prints))]
pub fn summarize(input: &[u8]) -> Summary
    ensures cut { CutInto input.now (records input.now) }
    ensures value { Summarizes 1024 input.now result }
    ensures text { Reports 1024 input.now (text_of result) }
{
    let blank = Line {
        terminal: Terminal(0),
        race: Race(0),
        pool: Pool::Win,
        runner: Runner(0),
        amount: Cents::new(0),
    };
    let mut strip = [blank; MOST];
    Summary(takings_of(&mut strip, input))
}

// The report on an input as text, where there is memory for it.
#[tactic(auto, using(intake::proofs::Cutting::cut_records, intake::proofs::Cutting::cut_once))]
pub fn report(heap: Global, input: &[u8]) -> Result<String, AllocError>
    ensures cut { CutInto input.now (records input.now) }
    ensures reports { IfOk result (λ t. Reports 1024 input.now (string_bytes t)) }
{
    summarize(input).to_string(heap)
}
