// What can be done with a tree: make it, ask it, pack it, start its leaves anew.
ghost use Rattle.std.specs.Prelude.{◌≡◌, ◌+◌, ◌<◌, ◌≤◌, [], ◌∷◌, length, IfOk, OnErr, MatchBool, MatchOption};
ghost use Rattle.base.specs.Refusals.{Answered};
ghost use Rattle.shapes.specs.Shapes.{size, depth, end, EndsWithin, TooFew, Reaches, Started, Alike};
ghost use Rattle.shapes.specs.Places.{FoundOnly};
ghost use Rattle.shapes.specs.Packed.{leaves_for, PackedAs};
ghost use Rattle.shapes.specs.Nodes.{size_of, depth_of};
ghost use Rattle.shapes.specs.declared.node.Node.TheVariants.{Leaf};
ghost use Rattle.shelves.specs.Shelves.{held};
ghost use Rattle.trees.specs.Calls.{get_asks, ItemAt, ReadsAsItLies, pack_asks};
ghost use Rattle.trees.specs.Examples.{Packed129};
ghost use Rattle.trees.specs.Views.{tree_nodes, tree_shape};

use crate::table::{LEAF, Place, descend, pack_under, restart_under};
use crate::tree::{MOST_ELEMENTS, MOST_NODES, Tree, TreeNodes};
use base::Refusal;
use shapes::Node;
use shelves::Shelf;
use std::alloc::{AllocError, Global};

// How many leaves the packed tree of some elements has.
fn leaves_for(elements: usize) -> usize
    requires { elements ≤ 32768 }
    ensures { result ≡ leaves_for elements }
{
    elements.div_ceil(LEAF).max(1)
}

impl Tree {
    // A tree of one empty leaf.
    pub fn new(heap: Global) -> Result<Tree, AllocError>
        ensures { IfOk result (λ t. tree_nodes t ≡ Leaf 0 0 ∷ []) }
    {
        let mut nodes = Vec::with_capacity(heap, MOST_NODES)?;
        nodes.push_reserved(Node::Leaf { start: 0, size: 0 });
        Ok(Tree { nodes })
    }

    // The nodes, by their numbers.
    pub fn nodes(&self) -> &[Node]
        ensures { result.now ≡ tree_nodes self.now }
    {
        &self.nodes
    }

    // The number of the root: the last node is the root.
    pub fn root(&self) -> usize
        ensures { result + 1 ≡ length (tree_nodes self.now) }
    {
        self.nodes.len() - 1
    }

    // The root, with the elements and the depth of the whole tree. Like the last node of a draft: a function that
    // serves both would be public, and so could not ask that its table has a node.
    fn root_node(&self) -> Node
        ensures size { size_of result ≡ size (tree_shape self.now) }
        ensures depth { depth_of result ≡ depth (tree_shape self.now) }
    {
        self.nodes[self.root()]
    }

    // How many elements the tree has. Its leaves reach just as far on a strip: the largest end of a leaf is the tree's length.
    #[tactic(auto, using(shapes::proofs::Reading::reaches_end))]
    pub fn len(&self) -> usize
        ensures value { result ≡ size (tree_shape self.now) }
        ensures end { result ≡ end (tree_shape self.now) }
        ensures reaches { Reaches (tree_shape self.now) result }
    {
        self.root_node().size()
    }

    pub fn depth(&self) -> usize
        ensures { result ≡ depth (tree_shape self.now) }
    {
        self.root_node().depth()
    }

    // Where a position below the length lies.
    #[tactic(auto, using(shapes::proofs::Growing::grown_under))]
    fn find(&self, position: usize) -> Place
        requires { position < size (tree_shape self.now) }
        ensures { FoundOnly (tree_shape self.now) position result.index result.met }
    {
        descend(self.nodes(), self.root(), position)
    }

    // Where a position lies on the strip, and how many nodes are met on the way down to it.
    pub fn place(&self, position: usize) -> Option<Place>
        ensures { MatchOption result
            (size (tree_shape self.now) ≤ position)
            (λ s. FoundOnly (tree_shape self.now) position s.index s.met) }
    {
        (position < self.len()).then(|| self.find(position))
    }

    // Whether every leaf ends within the elements of a shelf. That is so just when it has as many as the tree.
    #[tactic(auto, using(shapes::proofs::Reading::reaches_told))]
    pub fn fits<T>(&self, shelf: &Shelf<T>) -> bool
        ensures count { MatchBool result
            (size (tree_shape self.now) ≤ length (held shelf.now))
            (length (held shelf.now) < size (tree_shape self.now)) }
        ensures ends { MatchBool result
            (EndsWithin (length (held shelf.now)) (tree_shape self.now))
            (TooFew (length (held shelf.now)) (tree_shape self.now)) }
    {
        self.len() <= shelf.count()
    }

    // The element at a position, from elements that are as many as the tree has at least.
    #[tactic(auto, using(shapes::proofs::Reading::started_whole))]
    fn item<T: Copy>(&self, elements: &[T], position: usize) -> Option<T>
        requires { size (tree_shape self.now) ≤ length elements.now }
        ensures item { ItemAt elements.now (tree_shape self.now) position result }
        ensures whole { ReadsAsItLies elements.now (tree_shape self.now) }
    {
        let Place { index, .. } = self.place(position)?;
        Some(elements[index])
    }

    // The element at a position, from a shelf: the one that is read there, leaves from left to right.
    // Where the leaves start as a packed tree's, the whole shelf is read as it lies.
    pub fn get<T: Copy>(&self, shelf: &Shelf<T>, position: usize) -> Result<Option<T>, Refusal>
        ensures item { Answered (get_asks (held shelf.now) (tree_shape self.now)) result
            (ItemAt (held shelf.now) (tree_shape self.now) position) }
        ensures whole { ReadsAsItLies (held shelf.now) (tree_shape self.now) }
    {
        if !self.fits(shelf) {
            return Err(Refusal::Buffer);
        }
        Ok(self.item(shelf.elements(), position))
    }

    // Makes this the packed tree of some elements.
    #[tactic(auto, using(crate::proofs::Worked::packed_129))]
    pub fn pack(&mut self, elements: usize) -> Result<(), Refusal>
        ensures example { Packed129 }
        ensures packed { Answered (pack_asks elements) result (λ _.
            PackedAs elements (tree_shape self.new)) }
        ensures unchanged { OnErr result (self.new ≡ self.old) }
    {
        if elements > MOST_ELEMENTS {
            return Err(Refusal::Space);
        }
        let nodes = &mut self.nodes;
        nodes.clear();
        pack_under(nodes, 0, elements, leaves_for(elements));
        Ok(())
    }

    // Starts the leaves anew, each at the number of elements to its left; nodes and shape stay.
    #[tactic(auto, using(shapes::proofs::Growing::grown_under))]
    pub fn restart(&mut self)
        ensures alike { Alike (tree_shape self.old) (tree_shape self.new) }
        ensures started { Started 0 (tree_shape self.new) }
    {
        let root = self.root();
        restart_under(&mut self.nodes, root, 0);
    }

    // Makes this the tree of these nodes.
    pub fn copy_nodes(&mut self, source: TreeNodes)
        ensures { tree_nodes self.new ≡ source.entry.nodes.now }
    {
        self.nodes.clear();
        self.nodes.extend_from_slice(source.nodes).unwrap();
    }

    // Makes this the same tree as another; a `Clone` would ask for memory.
    pub fn copy_from(&mut self, source: &Tree)
        ensures { tree_nodes self.new ≡ tree_nodes source.now }
    {
        self.copy_nodes(TreeNodes {
            nodes: source.nodes(),
        });
    }
}
