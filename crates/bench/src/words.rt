// The words of a line to a command.
use super::bytes::{byte_of, bytes_of, mode_of, number_of};
use super::command::{Command, FreeCall, Maker};
use super::forms::no_command;
use super::kind::Kind;
use super::mistake::Mistake;
use frames::frame::LONGEST;
use std::alloc::Global;

// The name of a command, and the words behind it.
#[derive(Clone, Copy)]
pub struct Words<'w, 'a> {
    pub heap: Global,
    pub name: &'a str,
    pub arguments: &'w [&'a str],
}

impl<'w, 'a> Words<'w, 'a> {
    pub fn new(heap: Global, name: &'a str, arguments: &'w [&'a str]) -> Words<'w, 'a> {
        Words {
            heap,
            name,
            arguments,
        }
    }

    // The command that they say.
    pub fn command(self) -> Result<Command, Mistake<'a>> {
        if let ("box", []) = (self.name, self.arguments) {
            return Ok(Command::Box);
        }
        if let Some(maker) = self.maker()? {
            return Ok(Command::Make(maker));
        }
        if let Some(call) = self.line_call()? {
            return Ok(Command::Line(call));
        }
        if let Some(call) = self.store_call()? {
            return Ok(Command::Store(call));
        }
        if let Some(call) = self.settings_call()? {
            return Ok(Command::Settings(call));
        }
        if let Some(call) = self.free_call()? {
            return Ok(Command::Free(call));
        }
        Err(no_command(self.name))
    }

    // What the word behind the name stands for, where a command has one or none.
    pub fn optional<T, F: Fn(&'a str) -> Result<T, Mistake<'a>>>(
        self,
        meaning: F,
    ) -> Result<Option<T>, Mistake<'a>>
        requires { F.IsAlwaysCallable meaning }
    {
        match self.arguments {
            [] => Ok(None),
            [word] => meaning(word).map(Some),
            _ => Err(no_command(self.name)),
        }
    }

    // What makes something to speak to.
    fn maker(self) -> Result<Option<Maker>, Mistake<'a>> {
        Ok(Some(match (self.name, self.arguments) {
            ("wire", [incoming, outgoing]) => Maker::Wire {
                incoming: number_of(incoming)?,
                outgoing: number_of(outgoing)?,
            },
            ("tape", capture) => Maker::Tape(bytes_of(self.heap, capture)?),
            ("table", []) => Maker::Table,
            ("image", bytes) => Maker::Image(bytes_of(self.heap, bytes)?),
            ("store", bytes) => Maker::Store(bytes_of(self.heap, bytes)?),
            ("settings", [kind]) => Maker::Settings(Kind::try_from(*kind)?),
            _ => return Ok(None),
        }))
    }

    // What needs nothing made before.
    fn free_call(self) -> Result<Option<FreeCall>, Mistake<'a>> {
        Ok(Some(match (self.name, self.arguments) {
            ("write", [cmd, data @ ..]) => self.frame(LONGEST, cmd, data)?,
            ("write-in", [memory, cmd, data @ ..]) => self.frame(number_of(memory)?, cmd, data)?,
            ("board", [kind]) => FreeCall::Board(Kind::try_from(*kind)?),
            ("admits", [kind, mode]) => FreeCall::Admits(Kind::try_from(*kind)?, mode_of(mode)?),
            _ => return Ok(None),
        }))
    }

    fn frame(self, memory: usize, cmd: &'a str, data: &[&'a str]) -> Result<FreeCall, Mistake<'a>> {
        Ok(FreeCall::Write {
            memory,
            cmd: byte_of(cmd)?,
            data: bytes_of(self.heap, data)?,
        })
    }
}
