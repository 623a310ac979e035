// bench: plays a script of calls from standard input and prints a line for each.
#![tactic(auto)]

mod arguments;
mod bytes;
mod card_sessions;
mod card_words;
mod command;
mod failure;
mod forms;
mod kind;
mod line_calls;
mod line_ends;
mod line_sessions;
mod line_words;
mod mistake;
mod parse;
mod reading;
mod rig;
mod run;
mod sessions;
mod settings_subject;
mod stand;
mod store_subject;
mod subject;
mod texts;
mod words;
mod writing;

use std::process::ExitCode;

fn main(rt: HostRuntime) -> ExitCode {
    match run::run(&rt) {
        Ok(()) => ExitCode::SUCCESS,
        Err(failure) => {
            let _ = eprintln!(rt; "bench: {failure}");
            ExitCode::FAILURE
        }
    }
}
