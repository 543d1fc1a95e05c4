// The record of a bet line, 22 bytes: how it is read, and how it is written.
#![tactic(auto)]

mod amount;
mod fields;
mod numeral;
mod reader;
mod writer;

pub use amount::read_amount;
pub use fields::{Field, FieldText, Fields, Token};
pub use reader::read_line;
pub use writer::write_line;
