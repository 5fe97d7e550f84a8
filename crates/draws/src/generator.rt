ghost use Rattle.std.specs.Prelude.{◌≡◌};
ghost use Rattle.draws.specs.Sources.{generator, generator_below, next_state};

use crate::{Draws, Refusal};

/// Numbers made from a state of 64 bits, as many as stated.
#[derive(Clone, Copy)]
pub struct Generator {
    state: u64,
    left: u64,
}

// The state after one draw.
fn step(state: u64) -> u64
    ensures { result ≡ next_state state }
{
    state
        .wrapping_mul(6364136223846793005)
        .wrapping_add(1442695040888963407)
}

impl Generator {
    /// A generator that starts from the state, and makes as many numbers as `supply` says.
    pub fn new(state: u64, supply: u64) -> Generator
        ensures { generator result.state result.left ≡ generator state supply }
    {
        Generator {
            state,
            left: supply,
        }
    }
}

impl Draws for Generator {
    ghost meaning = { λ g. generator g.state g.left };

    ghost below = { λ g. generator_below g.state g.left };

    fn supply(&self) -> u64 {
        self.left
    }

    fn draw(&mut self, n: u32) -> Result<u32, Refusal> {
        if n == 0 {
            return Err(Refusal::ZeroBound);
        }
        if self.left == 0 {
            return Err(Refusal::NoSupply);
        }
        self.left -= 1;
        self.state = step(self.state);
        Ok((self.state >> 32) as u32 % n)
    }
}
