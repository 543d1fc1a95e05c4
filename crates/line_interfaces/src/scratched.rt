// The set of runners that do not start.
ghost use Rattle.std.specs.Prelude.{◌≡◌, ◌-◌, true, false, if◌then◌else◌};
ghost use Rattle.line_interfaces.specs.Scratching.{in_range, has, empty, Marks};

use base::Refusal;
use lines::Runner;

// A set of runners with numbers from 1 to 24: those that do not start.
#[derive(Clone, Copy, Debug)]
pub struct Scratched {
    // the flag of runner `r` stands at place `r - 1`, and is set if the runner is in the set;
    // an array and not a set of the library, which asks for memory: making this one cannot fail, and it is copied
    flags: [bool; 24],
}

// The place of a runner's flag. A runner with a number outside 1 to 24 has none.
fn place(runner: Runner) -> Option<usize>
    ensures { result ≡ (if in_range runner then Some (runner.0 - 1) else None) }
{
    match runner.0 {
        1..=Runner::MOST => Some(usize::from(runner.0) - 1),
        _ => None,
    }
}

impl Scratched {
    // The set of no runner.
    pub fn new() -> Scratched
        ensures { result ≡ empty }
    {
        Scratched { flags: [false; 24] }
    }

    // Whether a runner is in the set. One with a number outside 1 to 24 never is.
    pub fn contains(&self, runner: Runner) -> bool
        ensures { result ≡ has self.now runner }
    {
        place(runner).is_some_and(|place| self.flags[place])
    }

    // Puts a runner in, also where it is in the set already.
    // One with a number outside 1 to 24 is refused, and the set stays as it was.
    pub fn insert(&mut self, runner: Runner) -> Result<(), Refusal>
        ensures { Marks self.old runner true result self.new }
    {
        self.mark(runner, true)
    }

    // Takes a runner out, also where it is not in the set.
    // One with a number outside 1 to 24 is refused, and the set stays as it was.
    pub fn remove(&mut self, runner: Runner) -> Result<(), Refusal>
        ensures { Marks self.old runner false result self.new }
    {
        self.mark(runner, false)
    }

    // Puts a runner in, or takes it out, as the flag says.
    fn mark(&mut self, runner: Runner, flag: bool) -> Result<(), Refusal>
        ensures { Marks self.old runner flag result self.new }
    {
        let place = place(runner).ok_or(Refusal::Field)?;
        self.flags[place] = flag;
        Ok(())
    }
}
