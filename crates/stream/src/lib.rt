// Input in pieces of any sizes, and the archive that is written of it.
#![tactic(auto)]

mod input;
mod line_end;
mod output;
mod writer;

pub use input::Input;
pub use writer::ArchiveWriter;
