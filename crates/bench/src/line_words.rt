// The commands that are said to lines.
use super::bytes::{byte_of, bytes_of, number_of, short_of};
use super::command::{EndCall, LineCall};
use super::mistake::{Mistake, Wanted};
use super::words::Words;
use lines::script::Entry;

impl<'w, 'a> Words<'w, 'a> {
    // What is said to a line.
    pub fn line_call(self) -> Result<Option<LineCall>, Mistake<'a>> {
        Ok(Some(match (self.name, self.arguments) {
            ("script", _) => LineCall::Script(self.entries()?),
            ("take", _) => LineCall::Take(self.optional(number_of)?),
            ("put", bytes) => LineCall::Put(bytes_of(self.heap, bytes)?),
            ("space", []) => LineCall::Space,
            ("read", _) => LineCall::Read(self.optional(number_of)?),
            ("forget", []) => LineCall::Forget,
            _ => return Ok(self.end_call()?.map(LineCall::End)),
        }))
    }

    // What is said to one end of a line.
    fn end_call(self) -> Result<Option<EndCall>, Mistake<'a>> {
        Ok(Some(match (self.name, self.arguments) {
            ("bring", bytes) => EndCall::Bring(bytes_of(self.heap, bytes)?),
            ("carry", _) => EndCall::Carry(self.optional(number_of)?),
            ("sent", []) => EndCall::Sent,
            _ => return Ok(None),
        }))
    }

    fn entries(self) -> Result<Vec<Entry>, Mistake<'a>> {
        self.arguments
            .iter()
            .map(|&word| entry_of(word))
            .try_collect(self.heap)
    }
}

// A position, a colon and a mask.
fn entry_of(word: &str) -> Result<Entry, Mistake<'_>> {
    let (position, mask) = word
        .split_once(':')
        .ok_or(Mistake::Word(word, Wanted::Entry))?;
    Ok(Entry {
        position: short_of(position)?,
        mask: byte_of(mask)?,
    })
}
