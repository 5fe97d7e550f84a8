// The numbers of a line, in a fixed place.
ghost use Rattle.std.specs.Prelude.{◌≡◌, [], ◌∷◌, ◌++◌, map, MatchOption};
ghost use Rattle.std.specs.Str.Parse.{digits_value};
ghost use Rattle.std.specs.List.{AllByRecursion};
ghost use Rattle.lines.specs.Kinds.{IsNumber};
ghost use Rattle.lines.specs.Parts.{parts_of, numbers_of, parts_in, numbers_in};
ghost use Rattle.lines.specs.Lists.{nine, list_of};

use super::line::{Filled, Line, fields_in};
use super::scan::number;
use few::Few;

/// At most 9 numbers: seven fields, and of a filled line reply and result.
// Kept: a Few of its own type, since it leaves out in silence what has no room, where Few answers Full.
#[derive(Clone, Copy)]
pub struct Numbers {
    values: Few<u32, 9>,
}

impl Numbers {
    pub(crate) fn new() -> Numbers
        ensures { list_of result ≡ [] }
    {
        Numbers {
            values: Few::new(0),
        }
    }

    /// The numbers, in the order of the line.
    pub fn as_slice(&self) -> &[u32]
        ensures { result.now ≡ list_of self.now }
    {
        self.values.as_slice()
    }

    /// Appends a number, if there is room.
    pub fn push(&mut self, n: u32)
        ensures { list_of self.new ≡ nine (list_of self.old ++ (n ∷ [])) }
    {
        let _ = self.values.push(n);
    }
}

// The numbers of some fields; none where one is no number of a line.
fn values(fields: &[&[u8]]) -> Option<Numbers>
    ensures { MatchOption result (AllByRecursion (IsNumber 8) (map (λ f. f.now) fields.now) → ⊥) (λ n. AllByRecursion (IsNumber 8) (map (λ f. f.now) fields.now) × (list_of n ≡ nine (map (digits_value 10) (map (λ f. f.now) fields.now)))) }
{
    let mut numbers = Numbers::new();
    for f in fields {
        numbers.push(number(*f)?);
    }
    Some(numbers)
}

impl Line<'_> {
    /// The numbers of the line's fields; none where one is no number of a line.
    pub fn numbers(&self) -> Option<Numbers>
        ensures { MatchOption result (AllByRecursion (IsNumber 8) (parts_of self.now) → ⊥) (λ n. AllByRecursion (IsNumber 8) (parts_of self.now) × (list_of n ≡ numbers_of self.now)) }
    {
        let mut out: [&[u8]; 7] = [&[]; 7];
        values(fields_in(self, &mut out))
    }
}

impl Filled<'_> {
    /// The numbers of the line's fields, as of an input line; an empty list for the line of a faulty one.
    pub fn numbers(&self) -> Option<Numbers>
        ensures { MatchOption result (AllByRecursion (IsNumber 8) (parts_in self.now.line) → ⊥) (λ n. AllByRecursion (IsNumber 8) (parts_in self.now.line) × (list_of n ≡ numbers_in self.now.line)) }
    {
        match &self.line {
            Some(line) => line.numbers(),
            None => Some(Numbers::new()),
        }
    }
}
