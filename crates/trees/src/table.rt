// What is done to the table of a rope's nodes, from the topmost node down: by plain recursion, as the rules ask.
ghost use Rattle.std.specs.Prelude.{◌≡◌, ◌+◌, ◌-◌, ◌*◌, ◌^◌, ◌<◌, ◌≤◌, vec_len, vec_capacity};
ghost use Rattle.shapes.specs.Nodes.{node_at, size_of};
ghost use Rattle.shapes.specs.Building.{Hangs, FoundAt, RestartsAt, PacksBehind};

use shapes::{Node, concat_node};

// The most elements of a leaf.
pub const LEAF: usize = 64;

// Where a position lies.
#[derive(Clone, Copy, Debug)]
pub struct Place {
    // its place on the strip
    pub index: usize,
    // how many nodes were met from the root to its leaf, both counted
    pub met: usize,
}

// The child in which a position of a concatenation lies, and its position there: those of the left child come first.
fn child_at(left: usize, right: usize, before: usize, position: usize) -> (usize, usize)
    ensures left { position < before → (result.0 ≡ left) × (result.1 ≡ position) }
    ensures right { before ≤ position → (result.0 ≡ right) × (result.1 ≡ position - before) }
{
    if position < before {
        (left, position)
    } else {
        (right, position - before)
    }
}

// Finds the place of a position below a node.
pub(crate) fn descend(nodes: &[Node], at: usize, position: usize) -> Place
    requires hangs { Hangs nodes.now at }
    requires within { position < size_of (node_at nodes.now at) }
    ensures { FoundAt nodes.now at position result.index result.met }
{
    match nodes[at] {
        Node::Leaf { start, .. } => Place {
            index: start + position,
            met: 1,
        },
        Node::Concat { left, right, .. } => {
            let (child, below) = child_at(left, right, nodes[left].size(), position);
            let place = descend(nodes, child, below);
            Place {
                met: place.met + 1,
                ..place
            }
        }
    }
}

// The place behind the elements of a node that starts at a place.
fn end_of(start: usize, node: Node) -> usize
    requires { start + size_of node < 2 ^ 64 }
    ensures { result ≡ start + size_of node }
{
    start + node.size()
}

// Starts the leaves below a node anew, where `start` elements stand to their left.
pub(crate) fn restart_under(nodes: &mut [Node], at: usize, start: usize)
    requires hangs { Hangs nodes.old at }
    requires fits { start + size_of (node_at nodes.old at) < 2 ^ 64 }
    ensures { RestartsAt at start nodes.old nodes.new }
{
    match nodes[at] {
        Node::Leaf { size, .. } => nodes[at] = Node::Leaf { start, size },
        Node::Concat { left, right, .. } => {
            let behind = end_of(start, nodes[left]);
            restart_under(nodes, left, start);
            restart_under(nodes, right, behind);
        }
    }
}

// Hangs the packed tree over some leaves behind the nodes, for `size` elements from `start` on.
#[tactic(auto, using(shapes::proofs::Packing::packing))]
pub(crate) fn pack_under(nodes: &mut Vec<Node>, start: usize, size: usize, leaves: usize)
    requires some { 0 < leaves }
    requires least { 64 * (leaves - 1) ≤ size }
    requires most { size ≤ 64 * leaves }
    requires fits { start + size ≤ 32768 }
    requires room { vec_len nodes.old + 2 * leaves ≤ vec_capacity nodes.old + 1 }
    ensures packs { PacksBehind start size leaves nodes.old.items nodes.new.items }
    ensures len { vec_len nodes.new + 1 ≡ vec_len nodes.old + 2 * leaves }
    ensures capacity { vec_capacity nodes.new ≡ vec_capacity nodes.old }
{
    if leaves == 1 {
        nodes.push_reserved(Node::Leaf { start, size });
        return;
    }
    let on_right = leaves / 2;
    let on_left = leaves - on_right;
    let held = LEAF * on_left;
    pack_under(nodes, start, held, on_left);
    let left = nodes.len() - 1;
    pack_under(nodes, start + held, size - held, on_right);
    let right = nodes.len() - 1;
    let parent = concat_node(nodes, left, right).unwrap();
    nodes.push_reserved(parent);
}
