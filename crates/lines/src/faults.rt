// What is wrong with a record, nested as the record is: the amount's fault in the line's.
ghost use Rattle.std.specs.Prelude.{◌≡◌};
ghost use Rattle.lines.specs.Faults.{amount_refusal, line_refusal};

use base::Refusal;

// What is wrong with the bytes of an amount.
#[derive(Clone, Copy, PartialEq, Eq, Debug)]
pub enum AmountFault {
    // they have not the form of an amount
    Form,
}

// What is wrong with a record.
#[derive(Clone, Copy, PartialEq, Eq, Debug)]
pub enum LineFault {
    // it has not 22 bytes, or lacks a comma
    Shape,
    // a field other than the amount is outside its form or range: the place of the field's first byte in the record
    Field { place: usize },
    // the amount is at fault, with the place of its first byte in the record
    Amount { place: usize, fault: AmountFault },
}

// The row of the table of refusals that a fault stands for.
impl From<AmountFault> for Refusal {
    ghost from_gives = { λ fault refusal. refusal ≡ amount_refusal fault };

    fn from(fault: AmountFault) -> Refusal {
        match fault {
            AmountFault::Form => Refusal::Field,
        }
    }
}

impl From<LineFault> for Refusal {
    ghost from_gives = { λ fault refusal. refusal ≡ line_refusal fault };

    fn from(fault: LineFault) -> Refusal {
        match fault {
            LineFault::Shape => Refusal::Shape,
            LineFault::Field { .. } => Refusal::Field,
            LineFault::Amount { fault, .. } => Refusal::from(fault),
        }
    }
}
