// One allocation as text: what a person writes, and what a person reads.
#![tactic(auto)]

mod answer;
mod input;
mod report;

pub use answer::{INPUT, answer_to};
pub use input::{BadLine, Fault, Order};
pub use report::report_of;
