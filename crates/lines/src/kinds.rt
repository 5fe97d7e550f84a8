// The kinds of lines.
// Kept: codes of kinds are numbers, since a number that is no kind has an answer too.
ghost use Rattle.std.specs.Prelude.{◌≡◌};
ghost use Rattle.lines.specs.Kinds.{FirstPlace, arity, kinds_of};

/// The sorts of archive lines: as they come in, and filled with their answer.
#[derive(Clone, Copy, PartialEq, Eq, Debug)]
pub enum Sort {
    Input,
    Filled,
}

/// A kind of line, by its number, and how many fields it has.
#[derive(Clone, Copy, PartialEq, Eq, Debug)]
pub struct Row {
    pub kind: u8,
    pub fields: usize,
}

/// The place of the first row with that kind; none where no row has it.
pub fn find(rows: &[Row], kind: u8) -> Option<usize>
    ensures { FirstPlace rows.now kind result }
{
    rows.iter().position(|row| row.kind == kind)
}

// How many fields a line of that kind has, by the first row with it.
pub(crate) fn fields_of(rows: &[Row], kind: u8) -> Option<usize>
    ensures { result ≡ arity rows.now kind }
{
    let place = find(rows, kind)?;
    Some(rows[place].fields)
}

// The kinds of lines. The last, of a faulty line, is for filled lines only.
const KINDS: [Row; 22] = [
    Row {
        kind: 10,
        fields: 4,
    },
    Row {
        kind: 11,
        fields: 2,
    },
    Row {
        kind: 12,
        fields: 3,
    },
    Row {
        kind: 13,
        fields: 7,
    },
    Row {
        kind: 15,
        fields: 2,
    },
    Row {
        kind: 16,
        fields: 2,
    },
    Row {
        kind: 17,
        fields: 3,
    },
    Row {
        kind: 19,
        fields: 5,
    },
    Row {
        kind: 20,
        fields: 3,
    },
    Row {
        kind: 21,
        fields: 1,
    },
    Row {
        kind: 22,
        fields: 4,
    },
    Row {
        kind: 23,
        fields: 3,
    },
    Row {
        kind: 24,
        fields: 1,
    },
    Row {
        kind: 25,
        fields: 2,
    },
    Row {
        kind: 26,
        fields: 2,
    },
    Row {
        kind: 27,
        fields: 0,
    },
    Row {
        kind: 28,
        fields: 0,
    },
    Row {
        kind: 29,
        fields: 1,
    },
    Row {
        kind: 30,
        fields: 0,
    },
    Row {
        kind: 31,
        fields: 0,
    },
    Row {
        kind: 32,
        fields: 1,
    },
    Row {
        kind: 99,
        fields: 0,
    },
];

// The kinds of lines of a sort.
pub(crate) fn kinds_of(sort: Sort) -> &'static [Row]
    ensures { result.now ≡ kinds_of sort }
{
    match sort {
        Sort::Input => &KINDS[..21],
        Sort::Filled => &KINDS,
    }
}
