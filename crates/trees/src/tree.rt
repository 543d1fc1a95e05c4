mod methods;

ghost use Rattle.std.specs.Prelude.{◌≤◌, vec_capacity};
ghost use Rattle.std.proofs.Props.{props};
ghost use Rattle.shapes.specs.Trees.{Grown};

use shapes::Node;

// The most nodes of a tree or a draft, and the most elements.
pub const MOST_NODES: usize = 1023;

pub const MOST_ELEMENTS: usize = 32768;

// A rope's tree: its nodes, of which the last is the root.
// What stands after `by` shows that what every tree keeps has one proof at most, as a ghost field asks.
#[derive(Drop)]
pub struct Tree {
    nodes: Vec<Node>,
    // there is room for the most nodes from the start, so that no later call asks for memory
    ghost room: { 1023 ≤ vec_capacity nodes },
    ghost grown: { Grown nodes.items } by { Prim.hlevel props },
}

// The nodes of a tree, lent: a table of which holds what every tree keeps.
#[derive(Clone, Copy)]
pub struct TreeNodes<'a> {
    pub nodes: &'a [Node],
    ghost grown: { Grown nodes.now } by { Prim.hlevel props },
}
