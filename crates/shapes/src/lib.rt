// What ropes are: their nodes, the shapes that a table of nodes stands for, and when one is balanced.
#![tactic(auto)]

mod balance;
mod node;

pub use balance::least_power;
pub use node::{Node, concat_node};
