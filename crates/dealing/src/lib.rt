// Openings, accounts, series and trades: the checks of each call and what it does.
#![tactic(auto)]

mod listings;
mod trades;

pub use listings::{
    add_account, add_series, check_account, check_open, check_series, contract_of, lists,
};
pub use trades::{Fill, book_trade, check_trade};
