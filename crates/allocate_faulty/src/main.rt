// The program `allocate` on an input that is longer than it reads: nothing on standard output, and status 1.
#![tactic(auto)]

use std::process::ExitCode;

fn run(rt: &HostRuntime) -> anyhow::Result<()> {
    let text = allocation_text::answer_to(rt.alloc(), rt.stdin())?;
    print!(rt; "{text}")?;
    Ok(())
}

fn main(rt: HostRuntime) -> ExitCode {
    match run(&rt) {
        Ok(()) => ExitCode::SUCCESS,
        Err(error) => {
            // A message that cannot be written leaves the status alone to tell.
            let _ = eprintln!(rt; "{error}");
            ExitCode::FAILURE
        },
    }
}
