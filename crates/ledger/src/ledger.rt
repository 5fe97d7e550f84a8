ghost use Rattle.ledger.specs.Sound.{Sound};

use crate::state::State;

// A state that keeps what every book keeps. Whoever makes or changes one has to show that it does.
#[derive(Drop)]
pub struct Ledger {
    pub state: State,
    ghost sound: { Sound state },
}
