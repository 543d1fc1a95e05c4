// The values of a row, joined into one.
ghost use Rattle.std.specs.Prelude.{◌≡◌};
ghost use Rattle.interfaces.specs.Folds.{fold_of, Concatenates};

use crate::traits::Joining;

// The neutral value, joined with each value of a row in turn.
// What two rows one behind the other come to is what the first does, joined with what the second does.
pub fn fold<J: Joining>(joining: &J, values: &[J::Value]) -> J::Value
    ensures value { result ≡ fold_of (J.zero joining.now) (J.joined joining.now) values.now }
    ensures concatenation { Concatenates (J.zero joining.now) (J.joined joining.now) }
{
    values.iter().fold(
        joining.neutral(),
        |total, value| joining.join(total, *value),
    )
}
