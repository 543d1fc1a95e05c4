// Answers in words.
use base::Refusal;
use shapes::Node;
use std::fmt;
use std::fmt::Display;
use trees::Place;

// What a call answers: a value, or the number of its refusal.
#[derive(Drop)]
pub(crate) struct Answer<T>(pub(crate) Result<T, Refusal>);

impl<T: Display> Display for Answer<T> {
    fn fmt<W: fmt::Write>(&self, f: &mut fmt::Formatter<W>) -> fmt::Result {
        match &self.0 {
            Ok(value) => write!(f, "{value}"),
            Err(refusal) => {
                let number = refusal.number();
                write!(f, "refused,{number}")
            }
        }
    }
}

// A value, or a word where there is none.
#[derive(Drop)]
pub(crate) struct OrWord<T> {
    pub(crate) value: Option<T>,
    pub(crate) word: &'static str,
}

impl<T: Display> Display for OrWord<T> {
    fn fmt<W: fmt::Write>(&self, f: &mut fmt::Formatter<W>) -> fmt::Result {
        match &self.value {
            Some(value) => write!(f, "{value}"),
            None => f.write_str(self.word),
        }
    }
}

// A place on the strip, and how many nodes were met on the way to it.
#[derive(Clone, Copy)]
pub(crate) struct PlaceWords(pub(crate) Place);

impl Display for PlaceWords {
    fn fmt<W: fmt::Write>(&self, f: &mut fmt::Formatter<W>) -> fmt::Result {
        let Place { index, met } = self.0;
        write!(f, "{index},{met}")
    }
}

// The nodes of a table, with a space before each.
#[derive(Clone, Copy)]
pub(crate) struct Nodes<'a>(pub(crate) &'a [Node]);

impl<'a> Display for Nodes<'a> {
    fn fmt<W: fmt::Write>(&self, f: &mut fmt::Formatter<W>) -> fmt::Result {
        for node in self.0 {
            match *node {
                Node::Leaf { start, size } => write!(f, " L:{start}:{size}")?,
                Node::Concat {
                    left,
                    right,
                    size,
                    depth,
                } => write!(f, " C:{left}:{right}:{size}:{depth}")?,
            }
        }
        Ok(())
    }
}
