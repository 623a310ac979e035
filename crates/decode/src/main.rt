// decode: what was said on a serial line, from a capture of its bytes.
#![tactic(auto)]

mod arguments;
mod command;
mod decoder;
mod failure;
mod hex;
mod run;
mod tally;
#[cfg(test)]
mod tests;
mod text;

use std::process::ExitCode;

fn main(rt: HostRuntime) -> ExitCode {
    match run::run(&rt) {
        Ok(()) => ExitCode::SUCCESS,
        Err(failure) => {
            let _ = eprintln!(rt; "decode: {failure}");
            ExitCode::FAILURE
        }
    }
}
