ghost use Rattle.std.specs.Prelude.{◌≡◌, ◌-◌, ◌<◌, [], ◌∷◌, ◌++◌};
ghost use Rattle.draws.specs.Replies.{replied};
ghost use Rattle.draws.specs.Draw.{drawn, after, reply_of};
ghost use Rattle.draws.specs.Record.{kept, room, limited, limited_below, noted, source_after};

use crate::{Draws, Refusal};

// The most pairs of a table.
const PLACES: usize = 256;

/// A bound drawn with, and its answer: the number below it that was drawn.
// Kept: of the shape of a reply by chance, and the answer is the number drawn, no code.
#[derive(Clone, Copy, PartialEq, Eq, Debug)]
pub struct Pair {
    pub bound: u32,
    pub answer: u32,
}

/// Up to 256 pairs, in the order in which they came.
#[derive(Clone, Copy)]
pub struct Table {
    pairs: [Pair; PLACES],
    used: usize,
}

impl Table {
    /// A table with no pairs.
    pub fn new() -> Table
        ensures pairs { kept result ≡ [] }
        ensures all { room result ≡ 256 }
    {
        let filler = Pair {
            bound: 0,
            answer: 0,
        };
        Table {
            pairs: [filler; PLACES],
            used: 0,
        }
    }

    /// How many places are free.
    pub fn free(&self) -> u64
        ensures { result ≡ room self.now }
    {
        PLACES.saturating_sub(self.used) as u64
    }

    /// The pairs recorded, the oldest first.
    pub fn recorded(&self) -> &[Pair]
        ensures { result.now ≡ kept self.now }
    {
        &self.pairs[..self.used.min(PLACES)]
    }

    // Adds a pair where a place is free.
    // Kept: the answer is the number drawn, no code.
    fn note(&mut self, bound: u32, answer: u32)
        requires { 0 < room self.old }
        ensures pairs { kept self.new ≡ kept self.old ++ (record { bound = bound; answer = answer } ∷ []) }
        ensures less { room self.new ≡ room self.old - 1 }
    {
        self.pairs[self.used] = Pair { bound, answer };
        self.used += 1;
    }
}

/// Any source, with a table that keeps each bound drawn with and its answer.
#[derive(Drop)]
pub struct Recorder<S> {
    source: S,
    table: Table,
}

impl<S> Recorder<S> {
    /// A recorder over the source, its table empty.
    pub fn new(source: S) -> Recorder<S>
        ensures over { result.source ≡ source }
        ensures empty { kept result.table ≡ [] }
        ensures room { room result.table ≡ 256 }
    {
        Recorder {
            source,
            table: Table::new(),
        }
    }

    /// The source, and what was recorded.
    pub fn into_parts(self) -> (S, Table)
        ensures { result ≡ (self.source, self.table) }
    {
        let Recorder { source, table } = self;
        (source, table)
    }
}

impl<S: Draws> Draws for Recorder<S> {
    ghost meaning = { λ r. limited (room r.table) (S.Draws.meaning r.source) };

    ghost below = { λ r. limited_below (room r.table) (S.Draws.meaning r.source) (S.Draws.below r.source) };

    fn supply(&self) -> u64 {
        self.source.supply().min(self.table.free())
    }

    fn draw(&mut self, n: u32) -> Result<u32, Refusal>
        ensures reply { result ≡ drawn n (limited (room self.old.table) (S.Draws.meaning self.old.source)) }
        ensures number { replied reply_of result ≡ replied reply_of (drawn n (limited (room self.old.table) (S.Draws.meaning self.old.source))) }
        ensures left { limited (room self.new.table) (S.Draws.meaning self.new.source) ≡ after n (limited (room self.old.table) (S.Draws.meaning self.old.source)) }
        ensures source { S.Draws.meaning self.new.source ≡ source_after n (room self.old.table) (S.Draws.meaning self.old.source) }
        ensures record { kept self.new.table ≡ noted n result (kept self.old.table) }
    {
        if n == 0 {
            return Err(Refusal::ZeroBound);
        }
        if self.table.free() == 0 {
            return Err(Refusal::NoSupply);
        }
        let answer = self.source.draw(n)?;
        self.table.note(n, answer);
        Ok(answer)
    }
}
