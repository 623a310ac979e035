// What commands are said to, one at a time.
use super::command::{Command, Maker};
use super::failure::Failure;
use super::mistake::{Answer, Mistake};
use super::stand::Stand;
use super::writing::answer_free;
use std::alloc::Global;
use std::ops::ControlFlow;

// Something that was made and answers commands.
pub trait Subject {
    // What it says to a command.
    fn answer(&mut self, heap: Global, command: &Command) -> Answer;
}

// A subject that a box can be put around, which makes another kind of subject of it.
pub trait Boxable: Subject + Drop {
    type Boxed: Subject + Drop;

    fn boxed(self) -> Self::Boxed;
}

// Plays on a subject that no box can be put around; what is to be made next.
pub fn play<S: Subject>(subject: &mut S, stand: &mut Stand<'_>) -> Result<Option<Maker>, Failure> {
    Ok(say_commands(subject, None, stand)?.break_value().flatten())
}

// Plays on a subject up to the box that has this number, which is put around it, or to what is to be made next.
pub fn play_to_box<S: Boxable>(
    mut subject: S,
    number: u8,
    stand: &mut Stand<'_>,
) -> ControlFlow<Result<Option<Maker>, Failure>, S::Boxed> {
    match say_commands(&mut subject, Some(number), stand) {
        Ok(ControlFlow::Continue(())) => ControlFlow::Continue(subject.boxed()),
        Ok(ControlFlow::Break(next)) => ControlFlow::Break(Ok(next)),
        Err(failure) => ControlFlow::Break(Err(failure)),
    }
}

// Says the commands of the script to a subject for as long as they are for it: up to what is to be made next, or to
// the box that can be put around it, of which the number is given where one can.
fn say_commands<S: Subject>(
    subject: &mut S,
    number: Option<u8>,
    stand: &mut Stand<'_>,
) -> Result<ControlFlow<Option<Maker>>, Failure> {
    let heap = stand.heap();
    // kept: (c) a `while let` on the next command asks for the measure that stays open in `run::play_all`.
    for _ in 0..u64::MAX {
        match (stand.next()?, number) {
            (None, _) => break,
            (Some(Command::Make(maker)), _) => return Ok(ControlFlow::Break(Some(maker))),
            (Some(Command::Box), Some(number)) => {
                stand.say(format_args!("boxed {number}"))?;
                return Ok(ControlFlow::Continue(()));
            }
            (Some(command), _) => stand.answer(answered(subject, heap, &command))?,
        }
    }
    Ok(ControlFlow::Break(None))
}

// What is said to a command, by the subject where it is for one.
fn answered<S: Subject>(subject: &mut S, heap: Global, command: &Command) -> Answer {
    match command {
        Command::Free(call) => answer_free(heap, call),
        _ => subject.answer(heap, command),
    }
}

// What commands are said to before anything is made.
#[derive(Clone, Copy)]
pub struct Nothing;

impl Subject for Nothing {
    fn answer(&mut self, _heap: Global, _command: &Command) -> Answer {
        Err(Mistake::NothingMade)
    }
}
