// The amount field: what its ten bytes say.
ghost use Rattle.std.specs.Prelude.{◌≡◌, ◌-◌, ◌++◌, length, replicate, ℤ, MatchOption, MatchResult, ◌≢◌, slice_index};
ghost use Rattle.records.specs.Amounts.{sign_bytes, signed, Says};
ghost use Rattle.records.specs.Numerals.{Nothing};
ghost use Rattle.records.specs.Examples.{WorkedAmounts};
ghost use Rattle.lines.specs.declared.faults.AmountFault.TheVariants.{Form};
ghost use Rattle.records.specs.declared.amount.Sign.TheVariants.{Unsigned};

use crate::numeral::numeral;
use base::Cents;
use lines::AmountFault;

// The sign before an amount's digits, if there is one.
// No sign is a case of its own and not a `None`: so one table says what each of the three means.
#[derive(Clone, Copy)]
enum Sign {
    Unsigned,
    Plus,
    Minus,
}

impl Sign {
    // The sign times `size`.
    fn times(self, size: u32) -> Cents
        ensures { result.cents ≡ signed self size }
    {
        let size = i64::from(size);
        match self {
            Sign::Unsigned | Sign::Plus => Cents::new(size),
            Sign::Minus => Cents::new(-size),
        }
    }
}

// The text behind the spaces in front.
fn unpadded(text: &[u8]) -> &[u8]
    ensures layout { text.now ≡ replicate (length text.now - length result.now) 32 ++ result.now }
    ensures bare { slice_index result.now 0 ≢ 32 }
{
    let spaces = text.iter().take_while(|b| **b == b' ').count();
    &text[spaces..]
}

// The sign in front, and the text behind it.
fn split_sign(text: &[u8]) -> (Sign, &[u8])
    ensures layout { text.now ≡ sign_bytes result.0 ++ result.1.now }
    ensures bare { result.0 ≡ Unsigned →
        (slice_index result.1.now 0 ≢ 43) × (slice_index result.1.now 0 ≢ 45) }
{
    match text {
        [b'+', behind @ ..] => (Sign::Plus, behind),
        [b'-', behind @ ..] => (Sign::Minus, behind),
        _ => (Sign::Unsigned, text),
    }
}

// The amount that the bytes say, if they say one.
fn amount_in(bytes: &[u8]) -> Option<Cents>
    ensures { MatchOption result (Nothing (Says bytes.now)) (λ c. Says bytes.now c.cents) }
{
    let [_, _, _, _, _, _, _, b'.', _, _] = bytes else {
        return None;
    };
    let (sign, digits) = split_sign(unpadded(&bytes[..7]));
    if !(1..=6).contains(&digits.len()) {
        return None;
    }
    let whole = numeral(digits)?;
    let fraction = numeral(&bytes[8..])?;
    Some(sign.times(100 * whole + fraction))
}

// What the bytes of an amount say, in cents.
pub fn read_amount(bytes: &[u8]) -> Result<Cents, AmountFault>
    ensures says { MatchResult result
        (λ c. Says bytes.now c.cents)
        (λ f. (f ≡ Form) × ((z : ℤ) → Says bytes.now z → ⊥)) }
    ensures only { (z : ℤ) → Says bytes.now z → MatchResult result (λ c. c.cents ≡ z) (λ _. ⊥) }
    ensures examples { WorkedAmounts }
{
    amount_in(bytes).ok_or(AmountFault::Form)
}
