// What can be done with an amount: make it, read it, add it, print it.
ghost use Rattle.std.specs.Prelude.{◌≡◌, ◌/◌, ◌%◌, ℤ, ◌+ℤ◌, Some};
ghost use Rattle.std.specs.Int.{int_wrap, w64};
ghost use Rattle.base.specs.Money.{dollars};

use crate::cents::Cents;
use std::fmt;

// The whole dollars of a number of cents, and the cents that are left.
fn dollars_and_cents(size: u64) -> (u64, u64)
    ensures { (result.0 ≡ size / 100) × (result.1 ≡ size % 100) }
{
    (size / 100, size % 100)
}

impl Cents {
    // The amount of so many cents. This and `value` are `const`, as a `From` cannot be.
    pub const fn new(cents: i64) -> Cents
        ensures { result.cents ≡ cents }
    {
        Cents { cents }
    }

    pub const fn value(self) -> i64
        ensures { result ≡ self.cents }
    {
        self.cents
    }

    // The sum modulo 2^64, in signed form.
    #[tactic(auto, using(std::proofs::lemmas::Int::wraps))]
    pub fn wrapping_add(self, other: Cents) -> Cents
        ensures { result.cents ≡ int_wrap w64 (self.cents +ℤ other.cents) }
    {
        Cents::new(self.cents.wrapping_add(other.cents))
    }
}

// Dollars and cents with a point between them, as `20.00` or `-0.50`.
impl fmt::Display for Cents {
    ghost output = { λ c. Some (dollars c.cents) };

    fn fmt<W: fmt::Write>(&self, f: &mut fmt::Formatter<W>) -> fmt::Result {
        let amount = self.cents;
        let sign = if amount < 0 { "-" } else { "" };
        let (whole, cents) = dollars_and_cents(amount.unsigned_abs());
        // a piece for each digit: a writer that is full between the two has the first
        let (tens, units) = (cents / 10, cents % 10);
        write!(f, "{sign}{whole}.{tens}{units}")
    }
}
