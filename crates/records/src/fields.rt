// A record cut into its fields, which are handed out one at a time from the left.
ghost use Rattle.std.specs.Prelude.{◌≡◌, ◌+◌, ◌≤◌, take, drop, MatchOption};
ghost use Rattle.records.specs.Records.{Shaped, following, TokenOf, HandsOut, fields_from};
ghost use Rattle.records.specs.declared.fields.Field.TheVariants as field;
ghost use Rattle.std.specs.Iterator.{at_most};

// The five fields of a record, from left to right.
#[derive(Clone, Copy, PartialEq, Eq, Debug)]
pub enum Field {
    Terminal,
    Race,
    Pool,
    Runner,
    Amount,
}

// The bytes that hold a field, and the place of the first of them in the record.
#[derive(Clone, Copy, Debug)]
pub struct FieldText<'a> {
    pub place: usize,
    pub bytes: &'a [u8],
}

// A field as it stands in the input: an enum whose cases borrow it, as docs/DECISIONS.md names it for this place.
#[derive(Clone, Copy, Debug)]
pub enum Token<'a> {
    Terminal(FieldText<'a>),
    Race(FieldText<'a>),
    Pool(FieldText<'a>),
    Runner(FieldText<'a>),
    Amount(FieldText<'a>),
}

// The bytes of a record from a place on, as many as the width.
fn text_at(row: &[u8; 22], place: usize, width: usize) -> FieldText<'_>
    requires { place + width ≤ 22 }
    ensures { (result.place ≡ place) × (result.bytes.now ≡ take width (drop place row.now)) }
{
    FieldText {
        place,
        bytes: &row[place..place + width],
    }
}

impl Field {
    // The field to the right, if there is one.
    fn following(self) -> Option<Field>
        ensures { result ≡ following self }
    {
        match self {
            Field::Terminal => Some(Field::Race),
            Field::Race => Some(Field::Pool),
            Field::Pool => Some(Field::Runner),
            Field::Runner => Some(Field::Amount),
            Field::Amount => None,
        }
    }

    // The field as it stands in a record.
    fn token(self, row: &[u8; 22]) -> Token<'_>
        ensures { TokenOf row.now self result }
    {
        match self {
            Field::Terminal => Token::Terminal(text_at(row, 0, 3)),
            Field::Race => Token::Race(text_at(row, 4, 2)),
            Field::Pool => Token::Pool(text_at(row, 7, 1)),
            Field::Runner => Token::Runner(text_at(row, 9, 2)),
            Field::Amount => Token::Amount(text_at(row, 12, 10)),
        }
    }
}

// What is left to hand out of a record.
#[derive(Drop)]
pub struct Fields<'a> {
    row: &'a [u8; 22],
    next: Option<Field>,
}

impl<'a> Fields<'a> {
    // The fields of a record that has 22 bytes, with its commas.
    pub fn of(row: &'a [u8]) -> Option<Fields<'a>>
        ensures { MatchOption result
            (Shaped row.now → ⊥)
            (λ f. Shaped row.now × (f.row.now ≡ row.now) × (f.next ≡ Some field.Terminal)) }
    {
        let row = <&[u8; 22]>::try_from(row).ok()?;
        let [_, _, _, b',', _, _, b',', _, b',', _, _, b',', ..] = row else {
            return None;
        };
        Some(Fields {
            row,
            next: Some(Field::Terminal),
        })
    }
}

impl<'a> Iterator for Fields<'a> {
    type Item = Token<'a>;

    ghost next_gives = { λ s r t. (t.row ≡ s.row) × HandsOut s.row.now s.next r t.next };

    ghost remaining = { λ s. at_most (fields_from s.next) };

    fn next(&mut self) -> Option<Token<'a>> {
        let field = self.next?;
        self.next = field.following();
        Some(field.token(self.row))
    }
}
