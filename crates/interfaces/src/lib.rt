// Three interfaces, an operation, a test and a joining, and what the values of a row come to when they are joined.
#![tactic(auto)]

mod adding;
mod folding;
#[cfg(test)]
mod tests;
mod traits;

pub use adding::Sum;
pub use folding::fold;
pub use traits::{Joining, Operation, Test};
