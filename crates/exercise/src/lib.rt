// What leads to exercise: requests, denials, criteria, the fixing price, collateral and the close of trading.
#![tactic(auto)]

mod criteria;
mod requests;

pub use criteria::{
    check_criterion, check_fixing, check_lodge, check_withdrawal, close_trading, criterion,
    fix_price, lodge, set_criterion, withdraw,
};
pub use requests::{
    add_request, check_denial, check_rejection, check_request, deny, reject_request,
};
