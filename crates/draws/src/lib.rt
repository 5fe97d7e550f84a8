// Sources of draws, and what they mean.
#![tactic(auto)]

ghost use Rattle.std.specs.Prelude.{◌≡◌};
ghost use Rattle.draws.specs.Meaning.{Meaning, Below};
ghost use Rattle.draws.specs.Replies.{replied};
ghost use Rattle.draws.specs.Draw.{drawn, after, reply_of};

mod generator;
mod recorder;
mod tape;

pub use generator::Generator;
pub use recorder::{Pair, Recorder, Table};
pub use tape::Tape;

/// A reply as an archive line has it: its number, and the result that goes with it.
// Kept: the archive's numbers; of the shape of a pass and of a recorded pair by chance.
#[derive(Clone, Copy, PartialEq, Eq, Debug)]
pub struct Reply {
    pub number: u32,
    pub result: u32,
}

/// Why a draw is refused.
#[derive(Clone, Copy, PartialEq, Eq, Debug)]
pub enum Refusal {
    /// The bound is 0.
    ZeroBound,
    /// No draw can be had.
    NoSupply,
}

impl From<Refusal> for Reply {
    ghost from_gives = { λ refusal reply. reply ≡ reply_of refusal };

    fn from(refusal: Refusal) -> Reply {
        match refusal {
            Refusal::ZeroBound => Reply {
                number: 3,
                result: 0,
            },
            Refusal::NoSupply => Reply {
                number: 16,
                result: 1,
            },
        }
    }
}

/// A source of draws.
pub trait Draws {
    ghost meaning: { Self → Meaning };

    ghost below: { (s : Self) → Below (meaning s) };

    /// How many draws can be had.
    fn supply(&self) -> u64
        ensures { result ≡ (meaning self.now).supply };

    /// A number below n; refused, with nothing drawn, where n is 0, or where no draw can be had.
    // Kept: each source makes the same two checks, since only it can say what supply it has before it draws.
    fn draw(&mut self, n: u32) -> Result<u32, Refusal>
        ensures reply { result ≡ drawn n (meaning self.old) }
        ensures number { replied reply_of result ≡ replied reply_of (drawn n (meaning self.old)) }
        ensures left { meaning self.new ≡ after n (meaning self.old) };
}
