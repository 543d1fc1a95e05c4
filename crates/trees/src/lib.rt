// Trees of ropes: made, asked, packed, and with their leaves started anew.
#![tactic(auto)]

mod table;
mod tree;

pub use table::{LEAF, Place};
pub use tree::{MOST_ELEMENTS, MOST_NODES, Tree, TreeNodes};
