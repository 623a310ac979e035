// A line of a script to a command.
use super::command::Command;
use super::mistake::Mistake;
use super::words::Words;
use std::alloc::Global;

// The command that a line says, or none where it is blank or holds a comment alone.
pub fn parse(heap: Global, line: &str) -> Result<Option<Command>, Mistake<'_>> {
    let said = line.split_once('#').map_or(line, |(before, _)| before);
    let words: Vec<&str> = said.split_whitespace().collect(heap)?;
    match words.as_slice() {
        [] => Ok(None),
        [name, arguments @ ..] => Words::new(heap, name, arguments).command().map(Some),
    }
}
