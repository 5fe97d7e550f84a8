// Input lines with their answers, worked by hand from docs/RULES.md, docs/REPLIES.md and docs/FORMAT.md. The last piece has no line feed.
use std::alloc::{AllocError, Global};

pub type Row = (&'static [u8], &'static [u8]);

pub const ROWS: [Row; 17] = [
    // with no book open
    (b"28\n", b"28 : 1 0\n"),
    // faulty lines
    (b"14 1\n", b"99 : 2 1\n"),
    (b"\n", b"99 : 2 0\n"),
    (b"24 123456789\n", b"99 : 2 11\n"),
    // longer than a text; the blank behind the price is a wrong byte
    (
        b"24 5                                                                                                                                                                                                  \n",
        b"99 : 2 4\n",
    ),
    // the day of docs/ARCHIVE.md
    (b"10 7 100 500 3\n", b"10 7 100 500 3 : 0 0\n"),
    (b"11 11 1\n", b"11 11 1 : 0 1\n"),
    (b"11 12 4\n", b"11 12 4 : 0 2\n"),
    (b"12 1 50000 100\n", b"12 1 50000 100 : 0 1\n"),
    (b"13 1 1 1 2 1 4 1200\n", b"13 1 1 1 2 1 4 1200 : 0 1\n"),
    (b"24 52000\n", b"24 52000 : 0 0\n"),
    (b"28\n", b"28 : 0 0\n"),
    (b"29 2\n", b"29 2 : 0 0\n"),
    (b"29 7\n", b"29 7 : 0 0\n"),
    (b"30\n", b"30 : 0 2\n"),
    (
        b"31\n",
        b"31 : 0 2\n1 1 1 2 4 2000 0 100000000 0 102\n1 2 2 2 4 0 2000 0 100000000 102\n",
    ),
    (b"28", b"99 : 2 2\n"),
];

// All input.
pub fn input(alloc: Global) -> Result<Vec<u8>, AllocError> {
    let mut all = Vec::new(alloc);
    for (piece, _) in &ROWS {
        all.extend_from_slice(*piece)?;
    }
    Ok(all)
}

// All answers.
pub fn text(alloc: Global) -> Result<Vec<u8>, AllocError> {
    let mut all = Vec::new(alloc);
    for (_, answer) in &ROWS {
        all.extend_from_slice(*answer)?;
    }
    Ok(all)
}

// The answers to the lines that end in the first `come` bytes of the input.
pub fn text_so_far(alloc: Global, come: usize) -> Result<Vec<u8>, AllocError> {
    let mut all = Vec::new(alloc);
    let mut left = come;
    for (piece, answer) in &ROWS {
        if left < piece.len() || !piece.ends_with(b"\n") {
            return Ok(all);
        }
        left -= piece.len();
        all.extend_from_slice(*answer)?;
    }
    Ok(all)
}
