// The day's end: the cut, the assignment, the statement and the next day.
#![tactic(auto)]

mod assignment;
mod cutoff;
mod new_day;
mod statement;

pub use assignment::{assign, check_assignment};
pub use cutoff::{check_cut, cut};
pub use new_day::{check_next_day, next_day};
pub use statement::{check_statement, write_statement};
