use positions::{AccountType, Cell, Criterion, Leg, Right};

// The day's three stages.
#[derive(Clone, Copy, Debug, PartialEq, Eq)]
pub enum Stage {
    Input,
    Cut,
    Assigned,
}

// The numbers of an opening.
// Kept: the numbers as called in; what is fixed of them is Terms, and the day goes where it changes.
#[derive(Clone, Copy, Debug, PartialEq, Eq)]
pub struct Opening {
    pub number: u32,
    pub day: u32,
    pub size: u32,
    pub block: u32,
}

// What is fixed at the opening.
#[derive(Clone, Copy, Debug, PartialEq, Eq)]
pub struct Terms {
    pub number: u32,
    pub size: u32,
    pub block: u32,
}

// An account: a criterion of its own for calls and for puts, or none, which is the house's.
#[derive(Clone, Copy, Debug, PartialEq, Eq)]
pub struct Account {
    pub participant: u32,
    pub account_type: AccountType,
    pub collateral: u32,
    pub calls: Option<Criterion>,
    pub puts: Option<Criterion>,
}

#[derive(Clone, Copy, Debug, PartialEq, Eq)]
pub struct Contract {
    pub right: Right,
    pub strike: u32,
    pub expiry: u32,
}

// A series: its terms, and a cell for each account.
// Kept: cells by the account's place, since an account may be added after the series, and the law names each cell.
#[derive(Clone, Copy, Debug, PartialEq, Eq)]
pub struct Series {
    pub contract: Contract,
    pub cells: [Cell; 32],
}

// An exercise request, pending until it is rejected.
#[derive(Clone, Copy, Debug, Default, PartialEq, Eq)]
pub struct Request {
    pub account: u32,
    pub series: u32,
    pub quantity: u32,
    // Kept: a request that is rejected keeps its number and fields, so the flag stands beside them.
    pub pending: bool,
}

// Up to N rows, of which the first `count` are in use. Rows are numbered from 1.
// Kept: no heap, and no Few: laws name rows and count, and `one_more` makes a table of any count (no ghost field).
#[derive(Clone, Copy, Debug, PartialEq, Eq)]
pub struct Table<T, const N: usize> {
    pub rows: [T; N],
    pub count: u32,
}

pub type Accounts = Table<Account, 32>;

pub type Listing = Table<Series, 32>;

pub type Legs = Table<Leg, 256>;

pub type Requests = Table<Request, 128>;

// The house's criteria.
#[derive(Clone, Copy, Debug, PartialEq, Eq)]
pub struct House {
    pub calls: Criterion,
    pub puts: Criterion,
}

// The book of one underlying stock on one day. `previous` is the book's last day before this one, 0 on its first.
#[derive(Clone, Copy, Debug, PartialEq, Eq)]
pub struct State {
    pub terms: Terms,
    pub day: u32,
    // Kept: 0 is before every day, so `expires` has one rule for the first day and all others; an Option has two.
    pub previous: u32,
    pub stage: Stage,
    // Kept: there is no value that goes with it.
    pub trading: bool,
    pub fixing: Option<u32>,
    pub house: House,
    pub accounts: Accounts,
    pub series: Listing,
    pub legs: Legs,
    pub requests: Requests,
}

// A trade as it is called in: numbers of the series and of two accounts, and for each account an effect's code.
// Kept: the effects are codes, since a trade that is called in may have any; its shape is a cell's by chance.
#[derive(Clone, Copy, Debug, PartialEq, Eq)]
pub struct Trade {
    pub series: u32,
    pub buyer: u32,
    pub buyer_effect: u32,
    pub seller: u32,
    pub seller_effect: u32,
    pub quantity: u32,
    pub price: u32,
}

// A position transfer as it is called in.
// Kept: the side is a code, since a transfer that is called in may have any.
#[derive(Clone, Copy, Debug, PartialEq, Eq)]
pub struct PositionTransfer {
    pub from: u32,
    pub to: u32,
    pub series: u32,
    pub side: u32,
    pub quantity: u32,
}
