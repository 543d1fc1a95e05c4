// Runners put in and taken out, and the latest of a row.
use crate::{Latest, Scratched};
use base::{Cents, Refusal};
use interfaces::fold;
use lines::{Line, Pool, Race, Runner, Terminal};

#[test]
fn runners_that_do_not_start(rt: HostRuntime) {
    let mut scratched = Scratched::new();
    assert!(rt; scratched.insert(Runner(5)).is_ok());
    assert!(rt; matches!(scratched.insert(Runner(0)), Err(Refusal::Field)));
    assert!(rt; matches!(scratched.insert(Runner(25)), Err(Refusal::Field)));
    for number in 0..=255 {
        assert_eq!(rt; scratched.contains(Runner(number)), number == 5);
    }
    assert!(rt; scratched.remove(Runner(5)).is_ok());
    assert!(rt; !scratched.contains(Runner(5)));
}

#[test]
fn latest_of_a_row(rt: HostRuntime) {
    let first = Line {
        terminal: Terminal(7),
        race: Race(3),
        pool: Pool::Win,
        runner: Runner(5),
        amount: Cents::new(2000),
    };
    let second = Line {
        runner: Runner(9),
        ..first
    };
    assert_eq!(rt;
        fold(&Latest, &[Some(first), None, Some(second), None]),
        Some(second)
    );
    assert_eq!(rt; fold(&Latest, &[None]), None);
}
