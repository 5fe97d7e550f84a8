// The day book as a filter: input lines on standard input, filled lines and statement lines on standard output.
#![tactic(auto)]

use std::process::ExitCode;
use stream::{ArchiveWriter, Input};

fn main(rt: HostRuntime) -> ExitCode {
    let mut archive = ArchiveWriter::new(rt.stdout());
    match archive.answer_all(&mut Input::new(rt.stdin())) {
        Ok(()) => ExitCode::SUCCESS,
        Err(error) => {
            // A message that cannot be written leaves the status alone to tell.
            let _ = eprintln!(rt; "{error}");
            ExitCode::FAILURE
        },
    }
}
