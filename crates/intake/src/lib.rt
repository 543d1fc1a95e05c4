// Takes an input of bet lines in: cuts it into records, and puts the lines that they say into a strip.
#![tactic(auto)]

mod faults;
mod input;
mod strip;

pub use faults::IntakeFault;
pub use input::Records;
pub use strip::take_in;
