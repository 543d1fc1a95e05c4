// What can be asked of a line, and how what is answered is joined.
#![tactic(auto)]

mod asked;
mod latest;
mod scratched;
#[cfg(test)]
mod tests;

pub use asked::{AmountOf, AsLatest, NotScratched, PoolIs};
pub use latest::Latest;
pub use scratched::Scratched;
