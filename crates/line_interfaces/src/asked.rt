// What can be asked of a line.
ghost use Rattle.std.specs.Prelude.{not, Some};
ghost use Rattle.lines.specs.Lines.{same_pool};
ghost use Rattle.line_interfaces.specs.Scratching.{has};

use crate::scratched::Scratched;
use base::Cents;
use interfaces::{Operation, Test};
use lines::{Line, Pool};

// The amount of a line.
#[derive(Clone, Copy)]
pub struct AmountOf;

impl Operation for AmountOf {
    type Element = Line;

    type Value = Cents;

    ghost answer = { λ _ line. line.amount };

    fn apply(&self, element: Line) -> Cents {
        element.amount
    }
}

// A line as a latest: the latest of a stretch that is this one line.
// A latest is the last line seen in some stretch of lines, or none where the stretch has no line.
#[derive(Clone, Copy)]
pub struct AsLatest;

impl Operation for AsLatest {
    type Element = Line;

    type Value = Option<Line>;

    ghost answer = { λ _ line. Some line };

    fn apply(&self, element: Line) -> Option<Line> {
        Some(element)
    }
}

// Whether a line is of a pool.
#[derive(Clone, Copy, Debug)]
pub struct PoolIs {
    pub pool: Pool,
}

impl Test for PoolIs {
    type Element = Line;

    ghost passing = { λ test line. same_pool test.pool line.pool };

    fn passes(&self, element: Line) -> bool {
        element.pool == self.pool
    }
}

// Whether the runner of a line starts: whether it is not in the set.
#[derive(Clone, Copy, Debug)]
pub struct NotScratched {
    pub scratched: Scratched,
}

impl Test for NotScratched {
    type Element = Line;

    ghost passing = { λ test line. not (has test.scratched line.runner) };

    fn passes(&self, element: Line) -> bool {
        !self.scratched.contains(element.runner)
    }
}
