// The day book of one underlying stock: who may call what when, and every call with its whole outcome.
#![tactic(auto)]

mod admission;
mod book;
mod calls;
mod exercising;
mod pass;
mod stages;

pub use book::Book;
pub use pass::{AssignedPass, CutPass, InputPass, Pass};
