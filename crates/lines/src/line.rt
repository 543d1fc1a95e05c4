// One bet line, and what each of its fields is.
ghost use Rattle.std.specs.Prelude.{◌≡◌, [], ◌∷◌, ◌++◌, Some, codes, encode_utf8};
ghost use Rattle.lines.specs.Lines.{letter_of, brief};
ghost use Rattle.lines.specs.Letters.{StandsFor};

use base::Cents;
use std::error::Error;
use std::fmt;

// Numbers of three kinds, each a type of its own and not one type over its largest number:
// that the largest numbers differ is chance, and a race must never pass for a runner.

// The number of a betting terminal; 1 to 999 can be sent.
#[derive(Clone, Copy, PartialEq, Eq, Debug)]
pub struct Terminal(pub u16);

// The number of a race of the meeting; 1 to 20 can be sent.
#[derive(Clone, Copy, PartialEq, Eq, Debug)]
pub struct Race(pub u8);

// The number of a runner of the race; 1 to 24 can be sent.
#[derive(Clone, Copy, PartialEq, Eq, Debug)]
pub struct Runner(pub u8);

impl Terminal {
    // The largest number that can be sent.
    pub const MOST: u16 = 999;
}

impl Race {
    // The largest number that can be sent.
    pub const MOST: u8 = 20;
}

impl Runner {
    // The largest number that can be sent.
    pub const MOST: u8 = 24;
}

// The pool that money is put into: the runner wins, or comes in among the first.
#[derive(Clone, Copy, PartialEq, Eq, Debug)]
pub enum Pool {
    Win,
    Place,
}

// The money taken on a runner since its terminal's line before.
#[derive(Clone, Copy, PartialEq, Eq, Debug)]
pub struct Line {
    pub terminal: Terminal,
    pub race: Race,
    pub pool: Pool,
    pub runner: Runner,
    pub amount: Cents,
}

// A letter that no pool has.
#[derive(Clone, Copy, PartialEq, Eq, Debug)]
pub struct UnknownLetter(pub char);

// The pool that a letter stands for.
impl TryFrom<char> for Pool {
    type Error = UnknownLetter;

    ghost try_from_gives = { StandsFor };

    fn try_from(letter: char) -> Result<Pool, UnknownLetter> {
        match letter {
            'W' => Ok(Pool::Win),
            'P' => Ok(Pool::Place),
            _ => Err(UnknownLetter(letter)),
        }
    }
}

impl From<Pool> for char {
    ghost from_gives = { λ pool letter. letter ≡ letter_of pool };

    fn from(pool: Pool) -> char {
        match pool {
            Pool::Win => 'W',
            Pool::Place => 'P',
        }
    }
}

impl fmt::Display for Pool {
    ghost output = { λ p. Some (letter_of p ∷ []) };

    fn fmt<W: fmt::Write>(&self, f: &mut fmt::Formatter<W>) -> fmt::Result {
        f.write_char(char::from(*self))
    }
}

impl fmt::Display for UnknownLetter {
    ghost output = { λ e. Some (codes "no pool has the letter " ++ encode_utf8 e.0) };

    fn fmt<W: fmt::Write>(&self, f: &mut fmt::Formatter<W>) -> fmt::Result {
        let UnknownLetter(letter) = *self;
        write!(f, "no pool has the letter {letter}")
    }
}

impl Error for UnknownLetter {}

// The fields with commas between them, and nothing in front of a number.
impl fmt::Display for Line {
    ghost output = { λ l. Some (brief l) };

    fn fmt<W: fmt::Write>(&self, f: &mut fmt::Formatter<W>) -> fmt::Result {
        let Line {
            terminal: Terminal(terminal),
            race: Race(race),
            pool,
            runner: Runner(runner),
            amount,
        } = *self;
        write!(f, "{terminal},{race},{pool},{runner},{amount}")
    }
}
