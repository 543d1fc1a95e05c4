// An input cut into its records, which are handed out one at a time.
ghost use Rattle.std.specs.Prelude.{◌≡◌, ℕ, ◌<◌, length, MatchOption};
ghost use Rattle.intake.specs.Inputs.{EndsAt, NoEnd, NextRecord};
ghost use Rattle.std.specs.Iterator.{at_most};

// What is left of an input.
#[derive(Drop)]
pub struct Records<'a> {
    rest: &'a [u8],
}

// The place of the first CR LF.
fn first_end(bytes: &[u8]) -> Option<usize>
    ensures { MatchOption result
        (NoEnd bytes.now)
        (λ i. EndsAt bytes.now i × ((j : ℕ) → j < i → EndsAt bytes.now j → ⊥)) }
{
    (1..bytes.len())
        .find(|&i| bytes[i - 1] == b'\r' && bytes[i] == b'\n')
        .map(|i| i - 1)
}

impl<'a> Records<'a> {
    pub fn of(input: &'a [u8]) -> Records<'a>
        ensures { result.rest.now ≡ input.now }
    {
        Records { rest: input }
    }
}

// Each record without its CR LF, from the left.
impl<'a> Iterator for Records<'a> {
    type Item = &'a [u8];

    ghost next_gives = { λ s r t. NextRecord s.rest.now r t.rest.now };

    ghost remaining = { λ s. at_most (length s.rest.now) };

    fn next(&mut self) -> Option<&'a [u8]> {
        let rest = self.rest;
        if rest.is_empty() {
            return None;
        }
        match first_end(rest) {
            Some(end) => {
                self.rest = &rest[end + 2..];
                Some(&rest[0..end])
            }
            None => {
                self.rest = &[];
                Some(rest)
            }
        }
    }
}
