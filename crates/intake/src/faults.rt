// What is wrong with an input: the line's fault in the intake's.
ghost use Rattle.std.specs.Prelude.{◌≡◌};
ghost use Rattle.intake.specs.Faults.{intake_refusal, record_number};

use base::Refusal;
use lines::LineFault;

// What is wrong with an input, with the number of the record, counted from 1.
#[derive(Clone, Copy, PartialEq, Eq, Debug)]
pub enum IntakeFault {
    // the record is no line
    Line { record: usize, fault: LineFault },
    // the record is a line, and there is no space for it
    Space { record: usize },
}

impl IntakeFault {
    // The number of the record that was turned away, counted from 1.
    pub fn record(self) -> usize
        ensures { result ≡ record_number self }
    {
        match self {
            IntakeFault::Line { record, .. } | IntakeFault::Space { record } => record,
        }
    }
}

// The row of the table of refusals that a fault stands for.
impl From<IntakeFault> for Refusal {
    ghost from_gives = { λ fault refusal. refusal ≡ intake_refusal fault };

    fn from(fault: IntakeFault) -> Refusal {
        match fault {
            IntakeFault::Line { fault, .. } => Refusal::from(fault),
            IntakeFault::Space { .. } => Refusal::Space,
        }
    }
}
