// What can be asked of the bench, as a line of standard input says it:
// a letter and the numbers behind it, with a space before each; tests/rope_cases.py lists them.
use lines::Runner;
use std::error::Error;
use std::fmt;
use std::fmt::Display;
use std::num::{ParseIntError, TryFromIntError};
use std::str::FromStr;

// The strip that elements are taken from.
#[derive(Clone, Copy)]
pub(crate) enum Kind {
    Numbers,
    Lines,
    Amounts,
    Latests,
}

// Where an element is taken from: a shelf of `count` elements over the first places of a strip, and a position of the tree.
#[derive(Clone, Copy)]
pub(crate) struct Taking {
    pub(crate) places: usize,
    pub(crate) count: usize,
    pub(crate) position: usize,
}

#[derive(Clone, Copy)]
pub(crate) enum Command {
    NewDraft,
    Leaf { size: usize },
    Concat { left: usize, right: usize },
    ShowDraft,
    Seal,
    Pack { elements: usize },
    Restart,
    Place { position: usize },
    ShowTree,
    Take(Kind, Taking),
    ScratchNone,
    Scratch(Runner),
    Unscratch(Runner),
    IsScratched(Runner),
}

// Why a line is no command: a small type, since the 280 bytes of an `anyhow::Error` would be cleared at each call that may give one.
#[derive(Debug, Drop)]
pub(crate) enum CommandError {
    AnotherLetter,
    TooFewNumbers,
    NoNumber(ParseIntError),
    NoRunner(TryFromIntError),
}

impl Display for CommandError {
    fn fmt<W: fmt::Write>(&self, f: &mut fmt::Formatter<W>) -> fmt::Result {
        match self {
            CommandError::AnotherLetter => f.write_str("another letter"),
            CommandError::TooFewNumbers => f.write_str("too few numbers"),
            CommandError::NoNumber(error) => write!(f, "{error}"),
            CommandError::NoRunner(error) => write!(f, "{error}"),
        }
    }
}

impl Error for CommandError {}

// The number at a place among the words of a command.
fn number(words: &str, at: usize) -> Result<usize, CommandError> {
    let word = words.split(' ').nth(at).ok_or(CommandError::TooFewNumbers)?;
    word.parse::<usize>().map_err(CommandError::NoNumber)
}

fn runner_of(words: &str) -> Result<Runner, CommandError> {
    let runner = u8::try_from(number(words, 1)?).map_err(CommandError::NoRunner)?;
    Ok(Runner(runner))
}

fn taking_of(words: &str) -> Result<Taking, CommandError> {
    Ok(Taking {
        places: number(words, 1)?,
        count: number(words, 2)?,
        position: number(words, 3)?,
    })
}

impl FromStr for Command {
    type Err = CommandError;

    fn from_str(words: &str) -> Result<Command, CommandError> {
        Ok(match words.chars().next() {
            Some('D') => Command::NewDraft,
            Some('L') => Command::Leaf {
                size: number(words, 1)?,
            },
            Some('C') => Command::Concat {
                left: number(words, 1)?,
                right: number(words, 2)?,
            },
            Some('N') => Command::ShowDraft,
            Some('S') => Command::Seal,
            Some('K') => Command::Pack {
                elements: number(words, 1)?,
            },
            Some('R') => Command::Restart,
            Some('P') => Command::Place {
                position: number(words, 1)?,
            },
            Some('T') => Command::ShowTree,
            Some('E') => Command::Take(Kind::Numbers, taking_of(words)?),
            Some('F') => Command::Take(Kind::Lines, taking_of(words)?),
            Some('A') => Command::Take(Kind::Amounts, taking_of(words)?),
            Some('G') => Command::Take(Kind::Latests, taking_of(words)?),
            Some('Z') => Command::ScratchNone,
            Some('I') => Command::Scratch(runner_of(words)?),
            Some('O') => Command::Unscratch(runner_of(words)?),
            Some('Q') => Command::IsScratched(runner_of(words)?),
            _ => return Err(CommandError::AnotherLetter),
        })
    }
}
