ghost use Rattle.std.specs.Prelude.{◌≡◌, ◌≤◌};
ghost use Rattle.positions.specs.Cells.{on_side, AtMost};
ghost use Rattle.positions.specs.Legs.{no_leg, next_state, stepped, rebooked, open_part, left_by};

use crate::cell::Cell;
use crate::kinds::{Effect, Side};

// A leg is free, or held for a participant that may take it up.
// Kept: state and event meet in one match, a case for each pair; rule and laws name both, an Option has no names.
#[derive(Clone, Copy, Debug, PartialEq, Eq)]
pub enum LegState {
    Free,
    Held(u32),
}

// What befalls a leg's state.
#[derive(Clone, Copy, Debug, PartialEq, Eq)]
pub enum LegEvent {
    GiveUp(u32),
    Confirm,
    Reject,
    Cut,
}

// One side of a trade, in one account.
#[derive(Clone, Copy, Debug, PartialEq, Eq)]
pub struct Leg {
    pub account: u32,
    pub series: u32,
    pub side: Side,
    pub effect: Effect,
    pub quantity: u32,
    pub closed: u32,
    pub price: u32,
    pub state: LegState,
}

impl LegState {
    // The state after an event.
    fn next(self, event: LegEvent) -> LegState
        ensures { result ≡ next_state self event }
    {
        match (self, event) {
            (LegState::Free, LegEvent::GiveUp(participant)) => LegState::Held(participant),
            (held, LegEvent::GiveUp(_)) => held,
            (_, LegEvent::Confirm | LegEvent::Reject | LegEvent::Cut) => LegState::Free,
        }
    }
}

impl Leg {
    pub fn empty() -> Leg
        ensures { result ≡ no_leg }
    {
        Leg {
            account: 0,
            series: 0,
            side: Side::Buy,
            effect: Effect::Opening,
            quantity: 0,
            closed: 0,
            price: 0,
            state: LegState::Free,
        }
    }

    // The part that is not closed.
    pub fn open_part(&self) -> u32
        requires { self.now.closed ≤ self.now.quantity }
        ensures { result ≡ open_part self.now }
    {
        self.quantity - self.closed
    }

    // The cell that the leg leaves.
    // Kept: facts on counts: a step's result may be over the limit that it asks, so one bounded type fits neither.
    pub fn left_by(&self, cell: &Cell) -> Cell
        requires part { self.now.closed ≤ self.now.quantity }
        requires few { self.now.quantity ≤ 100_000 }
        requires held { open_part self.now ≤ on_side self.now.side cell.now }
        requires small { AtMost cell.now 100_000 }
        ensures { result ≡ left_by self.now cell.now }
    {
        cell.unbooked(self.side, self.open_part(), self.closed)
    }

    // Takes the event.
    pub fn step(&mut self, event: LegEvent)
        ensures { self.new ≡ stepped self.old event }
    {
        self.state = self.state.next(event);
    }

    // Stands in another account now, with the closed part that it has there.
    pub fn rebook(&mut self, account: u32, closed: u32)
        ensures { self.new ≡ rebooked self.old account closed }
    {
        self.account = account;
        self.closed = closed;
    }
}
