// What can be done with a draft: add a leaf, put two nodes together, seal it into a tree.
ghost use Rattle.std.specs.Prelude.{◌≡◌, ◌+◌, ◌<◌, ◌≤◌, [], ◌∷◌, ◌++◌, length, IfOk, OnErr, vec_capacity, MatchBool};
ghost use Rattle.base.specs.Refusals.{Passes, Answered};
ghost use Rattle.shapes.specs.Nodes.{concat_node, last_shape, size_of, depth_of};
ghost use Rattle.shapes.specs.Shapes.{size, depth};
ghost use Rattle.shapes.specs.Trees.{Grown};
ghost use Rattle.shapes.specs.Drafts.{Parentless, parentless, next_leaf, next_concat, elements as elements_of};
ghost use Rattle.drafts.specs.Views.{draft_nodes, draft_shapes};
ghost use Rattle.trees.specs.Views.{tree_nodes, tree_shape};
ghost use Rattle.drafts.specs.Examples.{Chains};
ghost use Rattle.drafts.specs.Calls.{leaf_asks, concat_asks, seal_asks};

use crate::draft::Draft;
use base::Refusal;
use shapes::{Node, concat_node, least_power};
use std::alloc::{AllocError, Global};
use trees::{LEAF, MOST_ELEMENTS, MOST_NODES, Tree, TreeNodes};

// An empty row with room for the most nodes.
fn reserved<T>(heap: Global) -> Result<Vec<T>, AllocError>
    ensures { IfOk result (λ v. (v.items ≡ []) × (1023 ≤ vec_capacity v)) }
{
    Vec::with_capacity(heap, MOST_NODES)
}

impl Draft {
    // A draft with no nodes.
    #[tactic(auto, using(shapes::proofs::Keeping::kept_nothing))]
    pub fn new(heap: Global) -> Result<Draft, AllocError>
        ensures { IfOk result (λ d. draft_nodes d ≡ []) }
    {
        Ok(Draft {
            nodes: reserved(heap)?,
            parented: reserved(heap)?,
            elements: 0,
        })
    }

    // The nodes, by their numbers.
    pub fn nodes(&self) -> &[Node]
        ensures { result.now ≡ draft_nodes self.now }
    {
        &self.nodes
    }

    // How many nodes there are, which is the number of the next one.
    #[tactic(auto, using(shapes::proofs::Tables::length_shapes))]
    pub fn len(&self) -> usize
        ensures nodes { result ≡ length (draft_nodes self.now) }
        ensures shapes { result ≡ length (draft_shapes self.now) }
    {
        self.nodes.len()
    }

    // How many elements the leaves have.
    pub fn elements(&self) -> usize
        ensures { result ≡ elements_of (draft_shapes self.now) }
    {
        self.elements
    }

    // How many elements more there is space for.
    #[tactic(auto, using(shapes::proofs::Keeping::kept_small))]
    fn space(&self) -> usize
        ensures { result + elements_of (draft_shapes self.now) ≡ 32768 }
    {
        MOST_ELEMENTS - self.elements
    }

    // Whether a node exists and has no parent.
    fn is_parentless(&self, node: usize) -> bool
        ensures { MatchBool result
            (Parentless (draft_shapes self.now) node)
            (Parentless (draft_shapes self.now) node → ⊥) }
    {
        self.parented.get(node).is_some_and(|parented| !*parented)
    }

    // The node over two parentless nodes.
    #[tactic(auto, using(shapes::proofs::Keeping::concat_fits))]
    fn node_over(&self, left: usize, right: usize) -> Node
        requires { Passes (concat_asks (draft_shapes self.now) left right) }
        ensures { result ≡ concat_node (draft_nodes self.now) left right }
    {
        concat_node(&self.nodes, left, right).unwrap()
    }

    // Adds a leaf for the next elements and answers its number.
    #[tactic(auto, using(shapes::proofs::Keeping::leaf_more))]
    pub fn leaf(&mut self, size: usize) -> Result<usize, Refusal>
        ensures added { Answered (leaf_asks (draft_shapes self.old) size) result (λ k.
            (k ≡ length (draft_shapes self.old))
            × (draft_shapes self.new
            ≡ draft_shapes self.old ++ (next_leaf (draft_shapes self.old) size ∷ []))) }
        ensures unchanged { OnErr result (self.new ≡ self.old) }
    {
        if size > LEAF {
            return Err(Refusal::LeafSize);
        }
        let number = self.len();
        if number >= MOST_NODES || size > self.space() {
            return Err(Refusal::Space);
        }
        self.nodes.push_reserved(Node::Leaf {
            start: self.elements,
            size,
        });
        self.parented.push_reserved(false);
        self.elements += size;
        Ok(number)
    }

    // Puts two parentless nodes together, one behind the other, and answers the number of the new node.
    #[tactic(auto, using(shapes::proofs::Keeping::concat_more))]
    pub fn concat(&mut self, left: usize, right: usize) -> Result<usize, Refusal>
        ensures added { Answered (concat_asks (draft_shapes self.old) left right) result (λ k.
            (k ≡ length (draft_shapes self.old))
            × (draft_shapes self.new
            ≡ draft_shapes self.old ++ (next_concat (draft_shapes self.old) left right ∷ []))) }
        ensures unchanged { OnErr result (self.new ≡ self.old) }
    {
        if !self.is_parentless(left) || !self.is_parentless(right) || left == right {
            return Err(Refusal::Node);
        }
        let number = self.len();
        if number >= MOST_NODES {
            return Err(Refusal::Space);
        }
        let parent = self.node_over(left, right);
        self.nodes.push_reserved(parent);
        self.parented[left] = true;
        self.parented[right] = true;
        self.parented.push_reserved(false);
        Ok(number)
    }

    // How many nodes have no parent: a sum over all flags, since a count of those that pass takes a branch at each.
    #[tactic(auto, using(shapes::proofs::Keeping::kept_count))]
    fn count_parentless(&self) -> usize
        ensures { result ≡ length (parentless (draft_shapes self.now)) }
    {
        self.parented
            .iter()
            .map(|parented| usize::from(!*parented))
            .sum()
    }

    // The node made last, which is the one without a parent where there is just one. (`Tree::root_node` says why it has
    // its own.)
    fn last_node(&self) -> Node
        requires { 0 < length (draft_nodes self.now) }
        ensures size { size_of result ≡ size (last_shape (draft_nodes self.now)) }
        ensures depth { depth_of result ≡ depth (last_shape (draft_nodes self.now)) }
    {
        self.nodes[self.len() - 1]
    }

    // Whether the draft can be sealed.
    #[tactic(auto, using(shapes::proofs::Growing::sealed_deep))]
    fn sealable(&self) -> Result<(), Refusal>
        ensures { Answered (seal_asks (draft_shapes self.now)) result (λ _.
            Grown (draft_nodes self.now)
            × (parentless (draft_shapes self.now) ≡ last_shape (draft_nodes self.now) ∷ [])) }
    {
        if self.count_parentless() != 1 {
            return Err(Refusal::Roots);
        }
        let root = self.last_node();
        if root.depth() > least_power(root.size()) + 2 {
            return Err(Refusal::Balance);
        }
        Ok(())
    }

    // Copies the draft into a tree, whose root is the one node without a parent.
    #[tactic(auto, using(crate::proofs::Worked::chains))]
    pub fn seal(&self, tree: &mut Tree) -> Result<(), Refusal>
        ensures examples { Chains }
        ensures sealed { Answered (seal_asks (draft_shapes self.now)) result (λ _.
            (tree_nodes tree.new ≡ draft_nodes self.now)
            × (parentless (draft_shapes self.now) ≡ tree_shape tree.new ∷ [])) }
        ensures unchanged { OnErr result (tree.new ≡ tree.old) }
    {
        self.sealable()?;
        tree.copy_nodes(TreeNodes {
            nodes: self.nodes(),
        });
        Ok(())
    }
}
