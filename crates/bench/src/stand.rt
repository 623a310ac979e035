// Where the bench stands in its script: what comes next, and what is said to it.
use super::command::Command;
use super::failure::Failure;
use super::mistake::{Answer, Mistake};
use super::parse::parse;
use std::alloc::Global;
use std::fmt::Display;
use std::io::{BufRead, BufReader, Split, Stdin};

#[derive(Drop)]
pub struct Stand<'a> {
    rt: &'a HostRuntime,
    lines: Split<BufReader<Stdin>>,
    // the number of the line read last, from 1
    number: u64,
}

impl<'a> Stand<'a> {
    pub fn new(rt: &'a HostRuntime) -> Result<Stand<'a>, Failure> {
        let input = BufReader::new(rt.alloc(), rt.stdin()).map_err(Failure::Read)?;
        Ok(Stand {
            rt,
            lines: input.split(rt.alloc(), b'\n'),
            number: 0,
        })
    }

    pub fn heap(&self) -> Global {
        self.rt.alloc()
    }

    // The next command, or none at the end of the script. Lines that are none are answered on the way.
    pub fn next(&mut self) -> Result<Option<Command>, Failure> {
        let Stand { rt, lines, number } = self;
        for bytes in lines.by_ref() {
            let bytes = bytes.map_err(Failure::Read)?;
            *number = number.saturating_add(1);
            match said(rt.alloc(), bytes.as_slice()) {
                Ok(Some(command)) => return Ok(Some(command)),
                Ok(None) => {}
                Err(mistake) => report(rt, *number, mistake)?,
            }
        }
        Ok(None)
    }

    // Prints what was done.
    pub fn say<T: Display + Drop>(&self, text: T) -> Result<(), Failure> {
        self.rt.println(text).map_err(Failure::Write)
    }

    // Prints the answer to the command read last.
    pub fn answer(&self, answer: Answer) -> Result<(), Failure> {
        match answer {
            Ok(text) => self.say(text),
            Err(mistake) => report(self.rt, self.number, mistake),
        }
    }
}

// Prints why a line is not carried out.
fn report(rt: &HostRuntime, number: u64, mistake: Mistake<'_>) -> Result<(), Failure> {
    rt.println(format_args!("line {number}: {mistake}"))
        .map_err(Failure::Write)
}

// The command that the bytes of a line say.
fn said(heap: Global, bytes: &[u8]) -> Result<Option<Command>, Mistake<'_>> {
    let line = std::str::from_utf8(bytes).map_err(|_| Mistake::NoText)?;
    parse(heap, line)
}
