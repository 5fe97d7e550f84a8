// Reads one allocation from standard input, makes it, and prints it draw by draw.
#![tactic(auto)]

use std::process::ExitCode;

fn run(rt: &HostRuntime) -> anyhow::Result<()> {
    let text = allocation_text::answer_to(rt.alloc(), rt.stdin())?;
    print!(rt; "{text}")?;
    Ok(())
}

fn main(rt: HostRuntime) -> ExitCode {
    match run(&rt) {
        Ok(()) => ExitCode::SUCCESS,
        Err(error) => {
            // A message that cannot be written leaves the status alone to tell.
            let _ = eprintln!(rt; "{error}");
            ExitCode::FAILURE
        },
    }
}
