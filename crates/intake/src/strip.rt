// Takes an input into a strip, whole or not at all. A strip is lines in the caller's memory, of any number, that are written over.
ghost use Rattle.std.specs.Prelude.{◌≡◌, ◌^◌, ◌<◌, ◌≤◌, length, MatchResult};
ghost use Rattle.intake.specs.Inputs.{CutInto, records};
ghost use Rattle.intake.specs.Intake.{AllRead, Taken, Refused};

use crate::faults::IntakeFault;
use crate::input::Records;
use lines::Line;
use records::read_line;

// How many lines an input has, where each record is a line and there is room for it.
fn check(input: &[u8], room: usize) -> Result<usize, IntakeFault>
    requires { room < 2 ^ 63 }
    ensures { MatchResult result
        (λ n. (n ≡ length (records input.now)) × AllRead (records input.now) n × (n ≤ room))
        (λ f. Refused room (records input.now) f) }
{
    // counted by hand: `enumerate` would number the records and not tell at the end how many there were,
    // `count` would read the input once more, and in a `try_fold` the count would be added up all the same
    let mut count = 0;
    for row in Records::of(input) {
        let number = count + 1;
        if let Err(fault) = read_line(row) {
            return Err(IntakeFault::Line {
                record: number,
                fault,
            });
        }
        if count == room {
            return Err(IntakeFault::Space { record: number });
        }
        count = number;
    }
    Ok(count)
}

// Puts the lines of a checked input at the front of the strip.
fn put(input: &[u8], strip: &mut [Line])
    requires all { AllRead (records input.now) (length (records input.now)) }
    requires room { length (records input.now) ≤ length strip.old }
    ensures { Taken (records input.now) (length (records input.now)) strip.old strip.new }
{
    for (place, row) in Records::of(input).enumerate() {
        let Ok(line) = read_line(row) else {
            unreachable()
        };
        strip[place] = line;
    }
}

// Puts the lines of an input at the front of a strip and answers how many there are, or refuses and leaves the strip as it was.
// It answers their number, as the rules ask, and not a slice of them, which would keep the strip lent.
// How the input is cut is said here and again by each call above that a program may make, so that each contract can be read alone.
#[tactic(auto, using(crate::proofs::Cutting::cut_records, crate::proofs::Cutting::cut_once))]
pub fn take_in(input: &[u8], strip: &mut [Line]) -> Result<usize, IntakeFault>
    ensures cut { CutInto input.now (records input.now) }
    ensures taken { MatchResult result
        (λ n. Taken (records input.now) n strip.old strip.new)
        (λ f. Refused (length strip.old) (records input.now) f × (strip.new ≡ strip.old)) }
{
    let count = check(input, strip.len())?;
    put(input, strip);
    Ok(count)
}
