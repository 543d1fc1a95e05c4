ghost use Rattle.std.specs.Prelude.{◌≡◌, ◌≤◌, length, MatchOption};
ghost use Rattle.records.specs.Numerals.{Digits, number};

// The number that at most six digits say, or none where some byte is no digit.
pub(crate) fn numeral(digits: &[u8]) -> Option<u32>
    requires { length digits.now ≤ 6 }
    ensures { MatchOption result
        (Digits digits.now → ⊥)
        (λ n. Digits digits.now × (n ≡ number digits.now)) }
{
    // a loop and not a `try_fold`, in which no proof was found that the closure's product and sum fit
    let mut n = 0;
    for d in digits {
        n = n * 10 + char::from(*d).to_digit(10)?;
    }
    Some(n)
}
