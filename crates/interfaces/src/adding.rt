// Amounts of money, joined by adding them up.
ghost use Rattle.interfaces.specs.Amounts.{nothing, sum};
ghost use Rattle.interfaces.specs.AmountsLemmas.{sum_assoc, sum_left, sum_right};

use crate::traits::Joining;
use base::Cents;

// The sum of two amounts, modulo 2^64 in signed form; no money is neutral.
#[derive(Clone, Copy)]
pub struct Sum;

impl Joining for Sum {
    type Value = Cents;

    ghost zero = { λ _. nothing };

    ghost joined = { λ _. sum };

    ghost assoc = { λ _. sum_assoc };

    ghost left = { λ _. sum_left };

    ghost right = { λ _. sum_right };

    fn neutral(&self) -> Cents {
        Cents::new(0)
    }

    fn join(&self, a: Cents, b: Cents) -> Cents {
        a.wrapping_add(b)
    }
}
