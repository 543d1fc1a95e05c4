// The strips that elements are taken from.
use base::Cents;
use interfaces::{Joining, Operation};
use line_interfaces::{AmountOf, AsLatest, Latest};
use lines::{Line, Pool, Race, Runner, Terminal};
use std::alloc::{AllocError, Global};

// How many places each strip has.
const PLACES: u16 = 40_000;

// Strips of four kinds: place i of the first holds the number i, of the second a line made from i.
// They are apart, since a shelf takes a slice of elements of one kind.
#[derive(Drop)]
pub(crate) struct Strips {
    pub(crate) numbers: Vec<u16>,
    pub(crate) lines: Vec<Line>,
    pub(crate) amounts: Vec<Cents>,
    pub(crate) latests: Vec<Option<Line>>,
}

// The casts are proved to lose nothing; `try_from` would add a case that cannot come.
fn line_at(place: u16) -> Line {
    Line {
        terminal: Terminal(place % 1000),
        race: Race((place % 21) as u8),
        pool: if place % 2 == 0 {
            Pool::Win
        } else {
            Pool::Place
        },
        runner: Runner((place % 25) as u8),
        amount: Cents::new(i64::from(place) - 20_000),
    }
}

// A line at an even place as a latest, and at an odd place none.
fn latest_at(place: u16) -> Option<Line> {
    if place % 2 == 0 {
        AsLatest.apply(line_at(place))
    } else {
        Latest.neutral()
    }
}

impl Strips {
    pub(crate) fn new(heap: Global) -> Result<Strips, AllocError> {
        Ok(Strips {
            numbers: (0..PLACES).collect(heap)?,
            lines: (0..PLACES).map(line_at).collect(heap)?,
            amounts: (0..PLACES)
                .map(|place| AmountOf.apply(line_at(place)))
                .collect(heap)?,
            latests: (0..PLACES).map(latest_at).collect(heap)?,
        })
    }
}
