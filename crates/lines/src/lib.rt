// Archive lines and statement lines: read from left to right, and written exactly.
#![tactic(auto)]

mod again;
mod kinds;
mod line;
mod numbers;
mod numerals;
mod read;
mod scan;
mod statement;
mod ten;
mod text;
mod write;

pub use again::{Rewritten, rewrite};
pub use kinds::{Row, Sort, find};
pub use line::{Filled, Line, fields_in, fields_into, line_of};
pub use numbers::Numbers;
pub use read::{Faulty, read_filled, read_input};
pub use scan::number;
pub use statement::{StatementLine, read_statement, write_statement};
pub use text::Text;
pub use write::{fill, fill_faulty, write_faulty, write_input_numbers, write_numbers};
