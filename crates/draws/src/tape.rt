ghost use Rattle.std.specs.Prelude.{◌≡◌};
ghost use Rattle.draws.specs.Sources.{tape, tape_below};

use crate::{Draws, Refusal};

/// A list of numbers that is read from its start: those that are still unread.
#[derive(Drop)]
pub struct Tape<'a> {
    unread: &'a [u32],
}

impl<'a> Tape<'a> {
    /// The whole list, unread.
    pub fn new(numbers: &'a [u32]) -> Tape<'a>
        ensures { tape result.unread.now 0 ≡ tape numbers.now 0 }
    {
        Tape { unread: numbers }
    }
}

impl<'a> Draws for Tape<'a> {
    ghost meaning = { λ t. tape t.unread.now 0 };

    ghost below = { λ t. tape_below t.unread.now 0 };

    fn supply(&self) -> u64 {
        self.unread.len() as u64
    }

    fn draw(&mut self, n: u32) -> Result<u32, Refusal> {
        if n == 0 {
            return Err(Refusal::ZeroBound);
        }
        let Some((number, rest)) = self.unread.split_first() else {
            return Err(Refusal::NoSupply);
        };
        self.unread = rest;
        Ok(number % n)
    }
}
