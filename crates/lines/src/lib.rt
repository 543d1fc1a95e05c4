// The lines that betting terminals send: what a line says, and what can be wrong with one.
#![tactic(auto)]

mod faults;
mod line;

pub use faults::{AmountFault, LineFault};
pub use line::{Line, Pool, Race, Runner, Terminal, UnknownLetter};
