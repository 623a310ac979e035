// The bench from its arguments to the end of its script.
use super::arguments::{Help, is_help};
use super::failure::Failure;
use super::sessions::session;
use super::stand::Stand;
use super::subject::{Nothing, play};
use std::env;

pub fn run(rt: &HostRuntime) -> Result<(), Failure> {
    let mut words = env::args(rt).map_err(Failure::Read)?.skip(1);
    match words.next() {
        None => play_all(rt),
        Some(word) if is_help(word.as_str()) => rt.print(Help).map_err(Failure::Write),
        Some(word) => Err(Failure::UnknownArgument(word)),
    }
}

// Plays one session after another.
fn play_all(rt: &HostRuntime) -> Result<(), Failure> {
    let mut stand = Stand::new(rt)?;
    let mut next = play(&mut Nothing, &mut stand)?;
    // kept: (c) tried `while let` on what is next: its measure stays open, for none falls while a script is read.
    for _ in 0..u64::MAX {
        let Some(maker) = next else { break };
        next = session(maker, &mut stand)?;
    }
    Ok(())
}
