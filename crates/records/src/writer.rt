// Writes one line as a record: not by `write!`, of which is proved only what it writes where it succeeds,
// while this call always answers.
ghost use Rattle.std.specs.Prelude.{◌≡◌, ℕ, ◌+◌, ◌^◌, ◌<◌, ◌≤◌, List, ◌++◌, length, take, decimal, MatchBool, MatchResult, unsigned_abs};
ghost use Rattle.base.specs.Money.{dollars};
ghost use Rattle.base.specs.declared.refusal.Refusal.TheVariants as refusal;
ghost use Rattle.records.specs.Records.{Reads};
ghost use Rattle.records.specs.Written.{right, written, Shows};

use base::{Cents, Refusal};
use itoa::write_digits;
use lines::{Line, Race, Runner, Terminal};

// The largest amount that ten bytes can hold, in cents.
const MOST_CENTS: u64 = 99_999_999;

// Puts the digits of `number` at the right of `out`, and answers the place of the first of them.
fn put_right(out: &mut [u8], number: u64) -> usize
    requires some { 0 < length out.old }
    requires room { number < 10 ^ length out.old }
    ensures place { result + length (decimal number) ≡ length out.old }
    ensures after { out.new ≡ take result out.old ++ decimal number }
{
    let end = out.len();
    write_digits(number, out, end)
}

// The ten bytes of an amount of at most six digits of dollars.
fn amount_bytes(amount: Cents) -> [u8; 10]
    requires { unsigned_abs amount.cents ≤ 99999999 }
    ensures { result ≡ right 10 32 (dollars amount.cents) }
{
    let size = amount.value().unsigned_abs();
    let mut out = *b"       .00";
    put_right(&mut out[8..], size % 100);
    let at = put_right(&mut out[..7], size / 100);
    if amount.value() < 0 {
        out[at - 1] = b'-';
    }
    out
}

// Whether each field can show its value.
fn can_be_shown(line: &Line) -> bool
    ensures { MatchBool result (Shows line.now) (Shows line.now → ⊥) }
{
    (1..=Terminal::MOST).contains(&line.terminal.0)
        && (1..=Race::MOST).contains(&line.race.0)
        && (1..=Runner::MOST).contains(&line.runner.0)
        && line.amount.value().unsigned_abs() <= MOST_CENTS
}

// The record that says the line, with no line end.
// It is refused where a value is one that no field can show.
pub fn write_line(line: &Line) -> Result<[u8; 22], Refusal>
    ensures written { MatchResult result
        (λ bytes. bytes ≡ written line.now)
        (λ f. f ≡ refusal.Field) }
    ensures reads { MatchResult result
        (λ bytes. Reads bytes line.now)
        (λ _. (row : List ℕ) → Reads row line.now → ⊥) }
{
    if !can_be_shown(line) {
        return Err(Refusal::Field);
    }
    // from the right: what stands to the left of a field is then still the blank record
    let mut out = *b"000,00, ,00,          ";
    out[12..].copy_from_slice(&amount_bytes(line.amount));
    put_right(&mut out[9..11], u64::from(line.runner.0));
    // the cast is proved to lose nothing: a letter is one byte
    out[7] = char::from(line.pool) as u8;
    put_right(&mut out[4..6], u64::from(line.race.0));
    put_right(&mut out[..3], u64::from(line.terminal.0));
    Ok(out)
}
