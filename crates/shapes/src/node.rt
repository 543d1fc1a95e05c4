// One node of a rope, as it stands in a table of nodes. Nodes are numbered by their places in the table,
// and stand in no boxes of their own: the numbers are part of the rules, as is the way down through the table.
ghost use Rattle.std.specs.Prelude.{◌≡◌, MatchOption};
ghost use Rattle.shapes.specs.Nodes.{size_of, depth_of, concat_node, FitsOver};

#[derive(Clone, Copy, PartialEq, Eq, Debug)]
pub enum Node {
    // a run of elements: where it starts on the strip, and how many there are
    Leaf {
        start: usize,
        size: usize,
    },
    // two nodes one behind the other, by their numbers, with the elements and the depth of both together
    Concat {
        left: usize,
        right: usize,
        size: usize,
        depth: usize,
    },
}

impl Node {
    // How many elements hang below the node.
    pub fn size(self) -> usize
        ensures { result ≡ size_of self }
    {
        match self {
            Node::Leaf { size, .. } | Node::Concat { size, .. } => size,
        }
    }

    // How many levels lie below the node: none below a leaf.
    pub fn depth(self) -> usize
        ensures { result ≡ depth_of self }
    {
        match self {
            Node::Leaf { .. } => 0,
            Node::Concat { depth, .. } => depth,
        }
    }
}

// The node over two others of a table, the left and the right one.
// None where one of them is not there, or where their sizes or depths come to more than 64 bits hold.
pub fn concat_node(nodes: &[Node], left: usize, right: usize) -> Option<Node>
    ensures { MatchOption result
        (FitsOver nodes.now left right → ⊥)
        (λ x. FitsOver nodes.now left right × (x ≡ concat_node nodes.now left right)) }
{
    let first = nodes.get(left)?;
    let second = nodes.get(right)?;
    let size = first.size().checked_add(second.size())?;
    let depth = first.depth().max(second.depth()).checked_add(1)?;
    Some(Node::Concat {
        left,
        right,
        size,
        depth,
    })
}
