// A line under trial, with the boxes around it, a reader at its near end, and what can be said to an end of it.
use super::command::{Command, EndCall};
use super::mistake::{Answer, Mistake};
use super::subject::{Boxable, Subject};
use frames::reader::Reader;
use lines::fault_box::FaultBox;
use lines::line::Line;
use lines::refusal::Refusal;
use lines::script::Entry;
use lines::tape::Tape;
use lines::wire::Wire;
use std::alloc::Global;

#[derive(Drop)]
pub struct Rig<L, E> {
    pub line: L,
    pub reader: Reader,
    pub end: E,
}

// What lines of one kind are called, and what is said to one end of them, however many boxes stand around.
pub trait End<L> {
    const KIND: &'static str;

    fn answer(&self, heap: Global, line: &mut L, call: &EndCall) -> Answer;
}

impl<L: Line, E> Rig<L, E> {
    // A bare line, and a reader that holds nothing.
    pub fn new(line: L, end: E) -> Rig<L, E> {
        Rig {
            line,
            reader: Reader::new(),
            end,
        }
    }
}

impl<L: Line + Scripted, E: End<L>> Subject for Rig<L, E> {
    fn answer(&mut self, heap: Global, command: &Command) -> Answer {
        match command {
            Command::Line(call) => self.answer_call(heap, call),
            Command::Box => Err(Mistake::BoxesUsedUp),
            _ => Err(Mistake::NotFor(E::KIND)),
        }
    }
}

impl<L: Line + Scripted + Drop, E: End<L> + End<FaultBox<L>> + Drop> Boxable for Rig<L, E> {
    type Boxed = Rig<FaultBox<L>, E>;

    fn boxed(self) -> Rig<FaultBox<L>, E> {
        let Rig { line, reader, end } = self;
        Rig {
            line: FaultBox::new(line),
            reader,
            end,
        }
    }
}

// A line whose outermost box, if it has one, can be loaded.
pub trait Scripted {
    // What the box says to the script; none where there is no box.
    fn load_script(&mut self, _entries: &[Entry]) -> Option<Result<(), Refusal>> {
        None
    }
}

impl<'a> Scripted for Wire<'a> {}

impl<'a> Scripted for Tape<'a> {}

impl<L: Line> Scripted for FaultBox<L> {
    fn load_script(&mut self, entries: &[Entry]) -> Option<Result<(), Refusal>> {
        Some(self.load(entries))
    }
}
