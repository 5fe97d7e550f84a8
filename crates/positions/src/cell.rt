// Kept: fields of a leg: a `&Leg` would ask callers for an account, a series, a price and a state besides.
// Kept: facts on counts: a step's result may be over the limit that the step asks, so one bounded type fits neither.
ghost use Rattle.std.specs.Prelude.{◌≡◌, ◌≤◌};
ghost use Rattle.positions.specs.Cells.{no_cell, with_sides, on_side, closing, booked, unbooked, given, received, with_denied, netted, undenied, with_due, carried, AtMost};

use crate::kinds::{AccountType, Effect, Side};

// One account's contracts in one series.
// Kept: of the shape of a trade by chance.
#[derive(Clone, Copy, Debug, Default, PartialEq, Eq)]
pub struct Cell {
    pub longs: u32,
    pub shorts: u32,
    pub denied: u32,
    pub due: u32,
    pub exercised: u32,
    pub assigned: u32,
    pub covered: u32,
}

impl Cell {
    pub fn empty() -> Cell
        ensures { result ≡ no_cell }
    {
        Cell::default()
    }

    // The cell with other longs and shorts.
    pub fn with_sides(&self, longs: u32, shorts: u32) -> Cell
        ensures { result ≡ with_sides self.now longs shorts }
    {
        Cell {
            longs,
            shorts,
            ..*self
        }
    }

    // The contracts on a side.
    pub fn on_side(&self, side: Side) -> u32
        ensures { result ≡ on_side side self.now }
    {
        match side {
            Side::Buy => self.longs,
            Side::Sell => self.shorts,
        }
    }

    // The closed part of a leg.
    pub fn closing(&self, side: Side, effect: Effect, quantity: u32) -> u32
        ensures { result ≡ closing self.now side effect quantity }
    {
        match (effect, side) {
            (Effect::Opening, _) => 0,
            (Effect::Closing, Side::Buy) => quantity.min(self.shorts),
            (Effect::Closing, Side::Sell) => quantity.min(self.longs),
        }
    }

    // The cell with a leg booked.
    pub fn booked(&self, side: Side, effect: Effect, quantity: u32) -> Cell
        requires small { AtMost self.now 300_000 }
        requires few { quantity ≤ 100_000 }
        ensures { result ≡ booked self.now side effect quantity }
    {
        let closed = self.closing(side, effect, quantity);
        let open = quantity - closed;
        match side {
            Side::Buy => self.with_sides(self.longs + open, self.shorts - closed),
            Side::Sell => self.with_sides(self.longs - closed, self.shorts + open),
        }
    }

    // The cell without a leg of that open and closed part.
    pub fn unbooked(&self, side: Side, open_part: u32, closed: u32) -> Cell
        requires held { open_part ≤ on_side side self.now }
        requires small { AtMost self.now 100_000 }
        requires few { closed ≤ 100_000 }
        ensures { result ≡ unbooked self.now side open_part closed }
    {
        match side {
            Side::Buy => self.with_sides(self.longs - open_part, self.shorts + closed),
            Side::Sell => self.with_sides(self.longs + closed, self.shorts - open_part),
        }
    }

    // The cell when so many contracts have left a side.
    pub fn given(&self, side: Side, quantity: u32) -> Cell
        requires { quantity ≤ on_side side self.now }
        ensures { result ≡ given self.now side quantity }
    {
        match side {
            Side::Buy => self.with_sides(self.longs - quantity, self.shorts),
            Side::Sell => self.with_sides(self.longs, self.shorts - quantity),
        }
    }

    // The cell when so many contracts have joined a side.
    pub fn received(&self, side: Side, quantity: u32) -> Cell
        requires small { AtMost self.now 100_000 }
        requires few { quantity ≤ 100_000 }
        ensures { result ≡ received self.now side quantity }
    {
        match side {
            Side::Buy => self.with_sides(self.longs + quantity, self.shorts),
            Side::Sell => self.with_sides(self.longs, self.shorts + quantity),
        }
    }

    // The cell with another count of contracts that are not to be exercised without a request.
    pub fn with_denied(&self, quantity: u32) -> Cell
        ensures { result ≡ with_denied self.now quantity }
    {
        Cell {
            denied: quantity,
            ..*self
        }
    }

    // The cell at the cut: in a net account longs and shorts are set off against one another.
    pub fn netted(&self, account_type: AccountType) -> Cell
        ensures { result ≡ netted account_type self.now }
    {
        if account_type.is_net() {
            let both = self.longs.min(self.shorts);
            self.with_sides(self.longs - both, self.shorts - both)
        } else {
            *self
        }
    }

    // The longs that are exercised without a request, where the series is.
    // Kept: yes or no, with no value beside it.
    fn undenied(&self, automatic: bool) -> u32
        ensures { result ≡ undenied self.now automatic }
    {
        if automatic {
            self.longs.saturating_sub(self.denied)
        } else {
            0
        }
    }

    // The cell with the contracts that are due, no more than there are longs.
    // Kept: yes or no, with no value beside it.
    pub fn with_due(&self, asked: u32, automatic: bool) -> Cell
        ensures { result ≡ with_due self.now asked automatic }
    {
        let wanted = asked.saturating_add(self.undenied(automatic));
        Cell {
            due: wanted.min(self.longs),
            ..*self
        }
    }

    // The cell on the next day.
    pub fn carried(&self) -> Cell
        ensures { result ≡ carried self.now }
    {
        Cell::empty().with_sides(self.longs, self.shorts)
    }
}
