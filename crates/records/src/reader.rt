// Reads one record.
ghost use Rattle.std.specs.Prelude.{◌≡◌, ℕ, ◌≤◌, List, [], ◌∷◌, length, MatchOption, MatchResult, ◌≢◌};
ghost use Rattle.lines.specs.declared.faults.LineFault.TheVariants as fault;
ghost use Rattle.lines.specs.Lines.{letter_of};
ghost use Rattle.records.specs.declared.fields.Field.{Field};
ghost use Rattle.records.specs.declared.fields.Field.TheVariants as kind;
ghost use Rattle.records.specs.Numerals.{Nothing, Numeral};
ghost use Rattle.records.specs.Records.{TerminalSays, RaceSays, PoolSays, RunnerSays, AmountSays};
ghost use Rattle.records.specs.Records.{place, width, field_of, text_of, ReadAs, FieldRead, Reads, FirstFault};

use crate::amount::read_amount;
use crate::fields::{FieldText, Fields, Token};
use crate::numeral::numeral;
use base::Cents;
use lines::{Line, LineFault, Pool, Race, Runner, Terminal};

// The number from 1 to `most` that digits say.
// The casts here and below are proved to lose nothing; `try_from` would add a case that cannot come.
fn number_to(digits: &[u8], most: u16) -> Option<u16>
    requires { length digits.now ≤ 4 }
    ensures { MatchOption result
        (Nothing (Numeral 1 most digits.now))
        (Numeral 1 most digits.now) }
{
    let n = numeral(digits)?;
    (1..=u32::from(most)).contains(&n).then(|| n as u16)
}

// The number from 1 to `most` that a field says, or the field's fault.
fn number_in(text: FieldText<'_>, most: u16) -> Result<u16, LineFault>
    requires { length text.bytes.now ≤ 4 }
    ensures { MatchResult result
        (Numeral 1 most text.entry.bytes.now)
        (λ f. (f ≡ fault.Field text.entry.place) × Nothing (Numeral 1 most text.entry.bytes.now)) }
{
    number_to(text.bytes, most).ok_or(LineFault::Field { place: text.place })
}

// The pool whose letter the bytes are.
fn pool_of(bytes: &[u8]) -> Option<Pool>
    ensures { MatchOption result
        ((p : Pool) → bytes.now ≢ letter_of p ∷ [])
        (λ p. bytes.now ≡ letter_of p ∷ []) }
{
    let [letter] = bytes else {
        return None;
    };
    Pool::try_from(char::from(*letter)).ok()
}

// A value that one of the fields says. An impl has just what is not the same for another field;
// that the three numbers are types of their own has its reason at `lines::Terminal`.
trait FieldValue: Sized {
    // the field
    ghost field: { Field };

    // what its bytes say
    ghost says: { List ℕ → Self → Type 0 };

    // The value that the field says, or the field's fault. The token is that of the field.
    fn read(token: Token<'_>) -> Result<Self, LineFault>
        requires { (field_of token ≡ field)
            × ((text_of token).place ≡ place field)
            × (length (text_of token).bytes.now ≤ width field) }
        ensures { ReadAs says (text_of token.entry).bytes.now field result };
}

impl FieldValue for Terminal {
    ghost field = { kind.Terminal };

    ghost says = { TerminalSays };

    fn read(token: Token<'_>) -> Result<Terminal, LineFault> {
        let Token::Terminal(text) = token else {
            unreachable()
        };
        Ok(Terminal(number_in(text, Terminal::MOST)?))
    }
}

impl FieldValue for Race {
    ghost field = { kind.Race };

    ghost says = { RaceSays };

    fn read(token: Token<'_>) -> Result<Race, LineFault> {
        let Token::Race(text) = token else {
            unreachable()
        };
        Ok(Race(number_in(text, u16::from(Race::MOST))? as u8))
    }
}

impl FieldValue for Pool {
    ghost field = { kind.Pool };

    ghost says = { PoolSays };

    fn read(token: Token<'_>) -> Result<Pool, LineFault> {
        let Token::Pool(text) = token else {
            unreachable()
        };
        pool_of(text.bytes).ok_or(LineFault::Field { place: text.place })
    }
}

impl FieldValue for Runner {
    ghost field = { kind.Runner };

    ghost says = { RunnerSays };

    fn read(token: Token<'_>) -> Result<Runner, LineFault> {
        let Token::Runner(text) = token else {
            unreachable()
        };
        Ok(Runner(number_in(text, u16::from(Runner::MOST))? as u8))
    }
}

impl FieldValue for Cents {
    ghost field = { kind.Amount };

    ghost says = { AmountSays };

    fn read(token: Token<'_>) -> Result<Cents, LineFault> {
        let Token::Amount(text) = token else {
            unreachable()
        };
        read_amount(text.bytes).map_err(|fault| LineFault::Amount {
            place: text.place,
            fault,
        })
    }
}

// Reads the next field, which is the one that says such a value.
fn next_value<T: FieldValue>(fields: &mut Fields<'_>) -> Result<T, LineFault>
    requires { fields.old.next ≡ Some T.field }
    ensures { FieldRead T.field T.says fields.old fields.new result }
{
    let Some(token) = fields.next() else {
        unreachable()
    };
    T::read(token)
}

// The line that a record says, or the first fault from the left.
pub fn read_line(row: &[u8]) -> Result<Line, LineFault>
    ensures says { MatchResult result (λ l. Reads row.now l) (λ f. FirstFault row.now f) }
    ensures only { (l : Line) → Reads row.now l → result ≡ Ok l }
    ensures first { (f : LineFault) → FirstFault row.now f → result ≡ Err f }
{
    let Some(mut fields) = Fields::of(row) else {
        return Err(LineFault::Shape);
    };
    // by `let .. else` and not by `?`, which would say the same: docs/DECISIONS.md names this form for this place
    let answer = next_value::<Terminal>(&mut fields);
    let Ok(terminal) = answer else {
        return Err(answer.unwrap_err());
    };
    let answer = next_value::<Race>(&mut fields);
    let Ok(race) = answer else {
        return Err(answer.unwrap_err());
    };
    let answer = next_value::<Pool>(&mut fields);
    let Ok(pool) = answer else {
        return Err(answer.unwrap_err());
    };
    let answer = next_value::<Runner>(&mut fields);
    let Ok(runner) = answer else {
        return Err(answer.unwrap_err());
    };
    let answer = next_value::<Cents>(&mut fields);
    let Ok(amount) = answer else {
        return Err(answer.unwrap_err());
    };
    Ok(Line {
        terminal,
        race,
        pool,
        runner,
        amount,
    })
}
