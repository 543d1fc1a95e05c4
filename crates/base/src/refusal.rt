ghost use Rattle.std.specs.Prelude.{◌≡◌};
ghost use Rattle.base.specs.Refusals.{number as number_of};

// Why a call is turned away: one case, with its number, for each row of the table of refusals in docs/REFUSALS.md.
#[derive(Clone, Copy, PartialEq, Eq, Debug)]
pub enum Refusal {
    // a record that has not 22 bytes, or lacks a comma
    Shape = 1,
    // a field outside its form or range; for a writer, a value that no field can show
    Field = 2,
    // a leaf of more than 64 elements
    LeafSize = 3,
    // a node that does not exist or has a parent, or one node named twice
    Node = 4,
    // a buffer too short; a shelf on which some leaf of the tree ends beyond the elements
    Buffer = 7,
    // no space for an element, a node or a record
    Space = 8,
    // a draft with no parentless node, or with several
    Roots = 9,
    // a draft out of balance
    Balance = 10,
}

impl Refusal {
    // The number of the refusal in the table.
    pub fn number(self) -> u8
        ensures { result ≡ number_of self }
    {
        self as u8
    }
}
