// The day book as a filter, over an input of more than three reads. With no book open, a line of kind 13 is turned back: it
// stands again with ` : 1 0` behind it. One line has 70,000 bytes: it begins as one of kind 24 with a price of eight digits,
// and a ninth digit is a wrong byte, so its longest start has 11 bytes. The last line, `24 5`, has no line feed: its longest
// start has 4 bytes. `stdout` was written line by line by these three rules, not by this program.
#![tactic(auto)]

use std::process::ExitCode;
use stream::{ArchiveWriter, Input};

fn main(rt: HostRuntime) -> ExitCode {
    let mut archive = ArchiveWriter::new(rt.stdout());
    match archive.answer_all(&mut Input::new(rt.stdin())) {
        Ok(()) => ExitCode::SUCCESS,
        Err(error) => {
            // A message that cannot be written leaves the status alone to tell.
            let _ = eprintln!(rt; "{error}");
            ExitCode::FAILURE
        },
    }
}
