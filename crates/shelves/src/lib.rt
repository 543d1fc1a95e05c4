// A shelf: a caller's strip, read only, with the count of elements that were put on it.
#![tactic(auto)]

ghost use Rattle.std.specs.Prelude.{◌≡◌, length, take};
ghost use Rattle.base.specs.Refusals.{Answered};
ghost use Rattle.shelves.specs.Shelves.{held, open_asks};

use base::Refusal;

// The part of the strip that holds elements; their count is its length.
#[derive(Clone, Copy)]
pub struct Shelf<'a, T> {
    elements: &'a [T],
}

impl<'a, T> Shelf<'a, T> {
    // Opens a shelf over a strip on which `count` elements were put: by the rules a shelf is a strip with a count.
    pub fn open(strip: &'a [T], count: usize) -> Result<Shelf<'a, T>, Refusal>
        ensures { Answered (open_asks strip.now count) result (λ s. held s ≡ take count strip.now) }
    {
        let elements = strip.get(..count).ok_or(Refusal::Buffer)?;
        Ok(Shelf { elements })
    }

    pub fn count(&self) -> usize
        ensures { result ≡ length (held self.now) }
    {
        self.elements.len()
    }

    // The elements, for as long as the strip is lent.
    pub fn elements(&self) -> &'a [T]
        ensures { result.now ≡ held self.now }
    {
        self.elements
    }
}
