// A draft, a tree, a scratched set and strips, and what they answer.
use crate::command::{Command, Kind, Taking};
use crate::strips::Strips;
use crate::words::{Answer, Nodes, OrWord, PlaceWords};
use anyhow::Context;
use base::Refusal;
use drafts::Draft;
use line_interfaces::Scratched;
use shelves::Shelf;
use std::alloc::{AllocError, Global};
use trees::Tree;

#[derive(Drop)]
pub(crate) struct Bench {
    heap: Global,
    draft: Draft,
    tree: Tree,
    scratched: Scratched,
    strips: Strips,
}

// The element at a position, from a shelf over the first places of a strip.
fn element<T: Copy>(
    tree: &Tree,
    strip: &[T],
    taking: Taking,
) -> anyhow::Result<Result<Option<T>, Refusal>> {
    let Taking {
        places,
        count,
        position,
    } = taking;
    let front = strip.get(..places).context("too long a strip")?;
    Ok(Shelf::open(front, count).and_then(|shelf| tree.get(&shelf, position)))
}

// An element that was taken, or none.
fn taken<T>(answer: Result<Option<T>, Refusal>) -> Answer<OrWord<T>> {
    Answer(answer.map(|value| OrWord {
        value,
        word: "none",
    }))
}

// What a call did that answers nothing.
fn done(answer: Result<(), Refusal>) -> Answer<&'static str> {
    Answer(answer.map(|()| "done"))
}

fn yes_or_no(answer: bool) -> &'static str {
    if answer { "yes" } else { "no" }
}

impl Bench {
    pub(crate) fn new(heap: Global) -> Result<Bench, AllocError> {
        Ok(Bench {
            heap,
            draft: Draft::new(heap)?,
            tree: Tree::new(heap)?,
            scratched: Scratched::new(),
            strips: Strips::new(heap)?,
        })
    }

    // What a command is answered, in words.
    pub(crate) fn answer(&mut self, command: Command) -> anyhow::Result<String> {
        let heap = self.heap;
        Ok(match command {
            Command::NewDraft => {
                self.draft = Draft::new(heap)?;
                "done".to_string(heap)?
            }
            Command::Leaf { size } => Answer(self.draft.leaf(size)).to_string(heap)?,
            Command::Concat { left, right } => {
                Answer(self.draft.concat(left, right)).to_string(heap)?
            }
            Command::ShowDraft => self.draft_words()?,
            Command::Seal => done(self.draft.seal(&mut self.tree)).to_string(heap)?,
            Command::Pack { elements } => done(self.tree.pack(elements)).to_string(heap)?,
            Command::Restart => {
                self.tree.restart();
                "done".to_string(heap)?
            }
            Command::Place { position } => self.place(position)?,
            Command::ShowTree => self.tree_words()?,
            Command::Take(kind, taking) => self.take(kind, taking)?,
            Command::ScratchNone => {
                self.scratched = Scratched::new();
                "done".to_string(heap)?
            }
            Command::Scratch(runner) => done(self.scratched.insert(runner)).to_string(heap)?,
            Command::Unscratch(runner) => done(self.scratched.remove(runner)).to_string(heap)?,
            Command::IsScratched(runner) => {
                yes_or_no(self.scratched.contains(runner)).to_string(heap)?
            }
        })
    }

    // Where a position lies, in words.
    fn place(&self, position: usize) -> Result<String, AllocError> {
        let place = OrWord {
            value: self.tree.place(position).map(PlaceWords),
            word: "none",
        };
        place.to_string(self.heap)
    }

    // The element that is taken from a shelf over the first places of a strip, in words:
    // one call for each kind of strip, since each answers another type.
    fn take(&self, kind: Kind, taking: Taking) -> anyhow::Result<String> {
        let heap = self.heap;
        let Bench { tree, strips, .. } = self;
        Ok(match kind {
            Kind::Numbers => taken(element(tree, &strips.numbers, taking)?).to_string(heap)?,
            Kind::Lines => taken(element(tree, &strips.lines, taking)?).to_string(heap)?,
            Kind::Amounts => taken(element(tree, &strips.amounts, taking)?).to_string(heap)?,
            Kind::Latests => {
                let found = element(tree, &strips.latests, taking)?;
                let words = found.map(|latest| {
                    latest.map(|value| OrWord {
                        value,
                        word: "empty",
                    })
                });
                taken(words).to_string(heap)?
            }
        })
    }

    // The draft: how many nodes and elements, and the nodes.
    fn draft_words(&self) -> Result<String, AllocError> {
        let len = self.draft.len();
        let elements = self.draft.elements();
        let nodes = Nodes(self.draft.nodes());
        format!(in self.heap; "{len} {elements}{nodes}")
    }

    // The tree: its length, its depth, the number of its root, and the nodes.
    fn tree_words(&self) -> Result<String, AllocError> {
        let len = self.tree.len();
        let depth = self.tree.depth();
        let root = self.tree.root();
        let nodes = Nodes(self.tree.nodes());
        format!(in self.heap; "{len} {depth} {root}{nodes}")
    }
}
