// A joining of the tests' own, and what rows come to under it and under `Sum`.
ghost use Rattle.std.specs.Prelude.{max};
ghost use Rattle.std.proofs.Common.{rules};

use crate::{Joining, Sum, fold};
use base::Cents;

// The larger of two numbers. By its laws alone, all that is proved of `fold` holds of it too.
struct Larger;

impl Joining for Larger {
    type Value = u8;

    ghost zero = { λ _. 0 };

    ghost joined = { λ _. max };

    ghost assoc = { Prim.search rules };

    ghost left = { Prim.search rules };

    ghost right = { Prim.search rules };

    fn neutral(&self) -> u8 {
        0
    }

    fn join(&self, a: u8, b: u8) -> u8 {
        a.max(b)
    }
}

#[test]
fn largest_of_a_row(rt: HostRuntime) {
    assert_eq!(rt; fold(&Larger, &[4, 9, 2]), 9);
    assert_eq!(rt; fold(&Larger, &[]), 0);
}

#[test]
fn amounts_added_up(rt: HostRuntime) {
    let amounts = [Cents::new(2000), Cents::new(50), Cents::new(-50)];
    assert_eq!(rt; fold(&Sum, &amounts).value(), 2000);
    assert_eq!(rt;
        fold(&Sum, &[Cents::new(i64::MAX), Cents::new(1)]).value(),
        i64::MIN
    );
}
