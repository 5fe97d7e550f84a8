// A scan of a line from left to right. An `Err` has the number of bytes left where it got stuck.
// Kept: fields, a line and its sort: a struct of them would be made for one call.
ghost use Rattle.std.specs.Prelude.{◌≡◌, ◌+◌, ◌<◌, List, [], ◌∷◌, map, length, take, Some, MatchOption, MatchResult, ◌≢◌};
ghost use Rattle.std.specs.Str.Parse.{digits_value};
ghost use Rattle.std.specs.Int.{IsInRange};
ghost use Rattle.lines.specs.Kinds.{kinds_of, IsNumber};
ghost use Rattle.lines.specs.Grammar.{Piece, num, Writes, Wide, Delim, shape, first, room, Run, Stuck, NumberRead, FieldsRead, Lines, Table, KindRead, SecondRead, NoSecond, Leads, StartRead, Done, AnswerRead, feed, answer};

use super::kinds::{Row, Sort, fields_of, kinds_of};

// What follows the byte `b`.
fn after<'a>(s: &'a [u8], b: u8) -> Result<&'a [u8], usize>
    ensures { MatchResult result (λ rest. s.now ≡ b ∷ rest.now) (λ left. (left ≡ length s.now) × (first s.now ≢ Some b)) }
{
    s.strip_prefix(&[b]).ok_or(s.len())
}

// How many digits a number of a line has at most.
#[derive(Clone, Copy)]
pub(crate) struct Width {
    digits: usize,
    ghost wide: { Wide digits },
}

impl Width {
    pub(crate) const OF_ARCHIVE: Width = Width { digits: 8 };

    pub(crate) const OF_STATEMENT: Width = Width { digits: 16 };

    // How many digits a number can have that begins as `s` does: 0 stands alone.
    fn room_at(self, s: &[u8]) -> usize
        ensures { result ≡ room self.digits s.now }
    {
        match s {
            [b'0', ..] => 1,
            _ => self.digits,
        }
    }

    // The longest start of `s` that begins a number, and the rest.
    fn digit_run(self, s: &[u8]) -> (&[u8], &[u8])
        ensures { Run self.digits s.now result.0.now result.1.now }
    {
        let most = self.room_at(s).min(s.len());
        let n = s[..most].iter().take_while(|b| b.is_ascii_digit()).count();
        s.split_at(n)
    }

    // The digits of a number, and what follows.
    pub(crate) fn read_number<'a>(self, s: &'a [u8]) -> Result<(&'a [u8], &'a [u8]), usize>
        ensures { MatchResult result (λ p. NumberRead self.digits s.now p.0.now p.1.now) (λ left. (ps : List Piece) → Stuck (Writes (num self.digits ∷ ps)) s.now left) }
    {
        let (digits, rest) = self.digit_run(s);
        if digits.is_empty() {
            return Err(s.len());
        }
        Ok((digits, rest))
    }

    // A blank and a number.
    fn read_field<'a>(self, s: &'a [u8]) -> Result<(&'a [u8], &'a [u8]), usize>
        ensures { MatchResult result (λ p. FieldsRead self.digits 1 0 s.now (p.0.now ∷ []) p.1.now) (λ left. (ps : List Piece) → Delim ps → Stuck (Writes (shape self.digits 1 ps)) s.now left) }
    {
        self.read_number(after(s, b' ')?)
    }

    // The digits of as many fields as `out` has places, and what follows.
    pub(crate) fn read_fields<'a>(
        self,
        s: &'a [u8],
        out: &mut [&'a [u8]],
    ) -> Result<&'a [u8], usize>
        ensures { MatchResult result (λ rest. FieldsRead self.digits (length out.old) 0 s.now (map (λ d. d.now) out.new) rest.now) (λ left. (ps : List Piece) → Delim ps → Stuck (Writes (shape self.digits (length out.old) ps)) s.now left) }
    {
        let mut rest = s;
        for place in out.iter_mut() {
            (*place, rest) = self.read_field(rest)?;
        }
        Ok(rest)
    }
}

// The value of a digit.
fn digit(b: u8) -> Option<u8>
    ensures { MatchOption result (IsInRange 48 57 b → ⊥) (λ d. (d < 10) × (b ≡ 48 + d)) }
{
    b.is_ascii_digit().then(|| b - b'0')
}

// The value of the digits of a number.
// Kept: a loop, since the bound of the value is an invariant, for which a fold has no place.
pub(crate) fn value_of(digits: &[u8]) -> u64
    requires { IsNumber 16 digits.now }
    ensures { result ≡ digits_value 10 digits.now }
{
    let mut n: u64 = 0;
    for b in digits {
        n = n * 10 + u64::from(*b - b'0');
    }
    n
}

/// The number that a field of an archive line writes; none for bytes that are no number of one: 1 to 8 digits, with no
/// 0 before others.
pub fn number(field: &[u8]) -> Option<u32>
    ensures { MatchOption result (IsNumber 8 field.now → ⊥) (λ n. IsNumber 8 field.now × (n ≡ digits_value 10 field.now)) }
{
    if field.is_empty() || field.len() > Width::OF_ARCHIVE.room_at(field) {
        return None;
    }
    let mut n: u32 = 0;
    for b in field {
        n = 10 * n + u32::from(digit(*b)?);
    }
    Some(n)
}

// A kind with its number of fields, and what follows it in a line.
// Kept: `find` and `fields_of` promise an answer for any number, so a kind is a number to them and here.
#[derive(Clone, Copy)]
pub(crate) struct Head<'a> {
    pub kind: u8,
    pub fields: usize,
    pub rest: &'a [u8],
}

// Whether some kind has `tens` for its first digit.
fn leads(rows: &[Row], tens: u8) -> bool
    requires { tens < 10 }
    ensures { Leads rows.now tens result }
{
    rows.iter().any(|row| row.kind / 10 == tens)
}

// The kind with `tens` for its first digit, and its second at the start of `s`.
fn second_digit<'a>(s: &'a [u8], rows: &[Row], tens: u8) -> Option<Head<'a>>
    requires { tens < 10 }
    ensures { MatchOption result (NoSecond rows.now tens s.now) (λ h. SecondRead rows.now tens s.now h.kind h.fields h.rest.now) }
{
    let (b, rest) = s.split_first()?;
    let kind = 10 * tens + digit(*b)?;
    let fields = fields_of(rows, kind)?;
    Some(Head { kind, fields, rest })
}

// The kind at the start of a line.
fn read_kind<'a>(line: &'a [u8], rows: &[Row]) -> Result<Head<'a>, usize>
    requires { Table rows.now }
    ensures { MatchResult result (λ h. KindRead rows.now line.now h.kind h.fields h.rest.now) (λ left. (t : List Piece) → Stuck (Lines rows.now t) line.now left) }
{
    let Some((a, more)) = line.split_first() else {
        return Err(line.len());
    };
    let Some(tens) = digit(*a) else {
        return Err(line.len());
    };
    match second_digit(more, rows, tens) {
        Some(head) => Ok(head),
        None if leads(rows, tens) => Err(more.len()),
        None => Err(line.len()),
    }
}

// The kind and the fields at the start of a line of a sort.
pub(crate) fn read_start<'a>(
    line: &'a [u8],
    sort: Sort,
    out: &mut [&'a [u8]; 7],
) -> Result<Head<'a>, usize>
    ensures { MatchResult result (λ h. StartRead (kinds_of sort) line.now h.kind (map (λ d. d.now) (take h.fields out.new)) h.rest.now) (λ left. (t : List Piece) → Delim t → Stuck (Lines (kinds_of sort) t) line.now left) }
{
    let head = read_kind(line, kinds_of(sort))?;
    let rest = Width::OF_ARCHIVE.read_fields(head.rest, &mut out[..head.fields])?;
    Ok(Head { rest, ..head })
}

// A line feed, and nothing after it.
pub(crate) fn read_feed(s: &[u8]) -> Result<(), usize>
    ensures { MatchResult result (λ _. Done (Writes feed) s.now []) (λ left. Stuck (Writes feed) s.now left) }
{
    let rest = after(s, b'\n')?;
    if rest.is_empty() {
        Ok(())
    } else {
        Err(rest.len())
    }
}

// ` : `, a reply, a blank, a result and a line feed, and nothing after it.
pub(crate) fn read_answer<'a>(s: &'a [u8]) -> Result<(&'a [u8], &'a [u8]), usize>
    ensures { MatchResult result (λ p. AnswerRead s.now p.0.now p.1.now) (λ left. Stuck (Writes answer) s.now left) }
{
    let mark = after(s, b' ')?;
    let blank = after(mark, b':')?;
    let (reply, more) = Width::OF_ARCHIVE.read_field(blank)?;
    let (result, end) = Width::OF_ARCHIVE.read_field(more)?;
    read_feed(end)?;
    Ok((reply, result))
}
