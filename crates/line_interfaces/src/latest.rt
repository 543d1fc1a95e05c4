// The last line seen.
ghost use Rattle.std.specs.Prelude.{Some, None, refl};
ghost use Rattle.line_interfaces.specs.Latests.{later};

use interfaces::Joining;
use lines::Line;

// The latest of two stretches of lines, one behind the other: that of the second, or that of the first where the second
// has none. None is neutral.
#[derive(Clone, Copy)]
pub struct Latest;

impl Joining for Latest {
    type Value = Option<Line>;

    ghost zero = { λ _. None };

    ghost joined = { λ _. later };

    ghost assoc = { λ _ a b. elim [ None ↦ refl | Some line ↦ refl ] };

    ghost left = { λ _. elim [ None ↦ refl | Some line ↦ refl ] };

    ghost right = { λ _ a. refl };

    fn neutral(&self) -> Option<Line> {
        None
    }

    fn join(&self, a: Option<Line>, b: Option<Line>) -> Option<Line> {
        b.or(a)
    }
}
