// Kept: fields, the numbers of an account and of a series, name a cell; a struct of both would be made at each look-up.
ghost use Rattle.std.specs.Prelude.{◌≡◌};
ghost use Rattle.ledger.specs.Tables.{RowNumber, cell_at};
ghost use Rattle.ledger.specs.Lookups.{within, has_account, has_series, has_leg, expires, expired, expiring, participant_of, another_of_same, is_free, held_for};

use crate::state::*;
use positions::{Cell, LegState};

pub fn is_within(n: u32, low: u32, high: u32) -> bool
    ensures { result ≡ within n low high }
{
    (low..=high).contains(&n)
}

// Whether a leg may be given up or transferred.
pub fn is_free(state: LegState) -> bool
    ensures { result ≡ is_free state }
{
    state == LegState::Free
}

// Whether a leg is held for the participant.
pub fn is_held_for(state: LegState, participant: u32) -> bool
    ensures { result ≡ held_for state participant }
{
    state == LegState::Held(participant)
}

impl Contract {
    // Whether it expires on a book day, which follows the previous one.
    pub fn expires(&self, previous: u32, day: u32) -> bool
        ensures { result ≡ expires self.now previous day }
    {
        previous < self.expiry && self.expiry <= day
    }
}

// Kept: facts on numbers that callers have checked: a type of a checked one would be made and opened around each call.
impl State {
    pub fn has_account(&self, n: u32) -> bool
        ensures { result ≡ has_account self.now n }
    {
        self.accounts.has(n)
    }

    pub fn has_series(&self, n: u32) -> bool
        ensures { result ≡ has_series self.now n }
    {
        self.series.has(n)
    }

    pub fn has_leg(&self, n: u32) -> bool
        ensures { result ≡ has_leg self.now n }
    {
        self.legs.has(n)
    }

    // Whether the series expired on an earlier day.
    pub fn expired(&self, series: u32) -> bool
        requires { RowNumber 32 series }
        ensures { result ≡ expired self.now series }
    {
        self.series.row(series).contract.expiry <= self.previous
    }

    // Whether the series expires today.
    pub fn expiring(&self, series: u32) -> bool
        requires { RowNumber 32 series }
        ensures { result ≡ expiring self.now series }
    {
        self.series
            .row(series)
            .contract
            .expires(self.previous, self.day)
    }

    // An account's cell in a series, both by number.
    // Kept: cells are an array by account and no Table, so the account's number is made a place here.
    pub fn cell(&self, account: u32, series: u32) -> Cell
        requires { RowNumber 32 account × RowNumber 32 series }
        ensures { result ≡ cell_at self.now account series }
    {
        self.series.row(series).cells[account as usize - 1]
    }

    pub fn participant(&self, account: u32) -> u32
        requires { RowNumber 32 account }
        ensures { result ≡ participant_of self.now account }
    {
        self.accounts.row(account).participant
    }

    // Whether the second is another account of the first one's participant.
    pub fn another_of_same(&self, one: u32, other: u32) -> bool
        requires { RowNumber 32 one × RowNumber 32 other }
        ensures { result ≡ another_of_same self.now one other }
    {
        one != other && self.participant(one) == self.participant(other)
    }
}
