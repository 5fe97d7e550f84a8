// One series at the day's end: the assignment of what is exercised, and the lines of the statement.
#![tactic(auto)]

mod account;
mod assignment;
mod line;
mod statement;

pub use account::AssignmentTerms;
pub use assignment::{assign_series, draws_for_series};
pub use line::{Line, Method, Role, SeriesTerms};
pub use statement::{count_series, write_series};
