// One account's position in one series, and the legs that move it.
#![tactic(auto)]

mod cell;
mod criterion;
mod kinds;
mod leg;
mod row;

pub use cell::Cell;
pub use criterion::Criterion;
pub use kinds::{AccountType, Effect, NoCode, Right, Side};
pub use leg::{Leg, LegEvent, LegState};
pub use row::{place, total_longs};
