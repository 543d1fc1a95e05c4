// Drafts of ropes: nodes that are put together one by one, and sealed into a tree.
#![tactic(auto)]

mod draft;

pub use draft::Draft;
