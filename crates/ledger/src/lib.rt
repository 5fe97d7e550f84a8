// The state of a day book, its tables, and what a call looks up in them.
#![tactic(auto)]

mod ledger;
pub mod limits;
mod lookups;
mod refusal;
mod state;
mod tables;

pub use ledger::Ledger;
pub use lookups::{is_free, is_held_for, is_within};
pub use refusal::Refusal;
pub use state::{
    Account, Accounts, Contract, House, Legs, Listing, Opening, PositionTransfer, Request,
    Requests, Series, Stage, State, Table, Terms, Trade,
};
