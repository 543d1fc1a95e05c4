// What every layer of the engine shares: why a call is turned away, and amounts of money.
#![tactic(auto)]

mod cents;
mod refusal;

pub use cents::Cents;
pub use refusal::Refusal;
