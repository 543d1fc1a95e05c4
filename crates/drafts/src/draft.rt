mod methods;

ghost use Rattle.std.specs.Prelude.{◌≡◌, ◌≤◌, vec_capacity};
ghost use Rattle.std.proofs.Props.{props};
ghost use Rattle.shapes.specs.Nodes.{shapes};
ghost use Rattle.shapes.specs.Drafts.{Kept, elements as elements_of};

use shapes::Node;

// A draft: nodes that are put together one by one, until a single one is left without a parent and they are sealed into a tree.
// What stands after `by` shows that what a draft keeps has one proof at most, as a ghost field asks.
#[derive(Drop)]
pub struct Draft {
    nodes: Vec<Node>,
    // for each node, whether it has a parent; beside the nodes, since those are lent as one slice
    parented: Vec<bool>,
    // how many elements the leaves have
    elements: usize,
    // there is room for the most nodes from the start, so that no later call asks for memory
    ghost room: { 1023 ≤ vec_capacity nodes },
    ghost flags_room: { 1023 ≤ vec_capacity parented },
    ghost kept: { Kept nodes.items parented.items } by { Prim.hlevel props },
    ghost counted: { elements ≡ elements_of (shapes nodes.items) },
}
