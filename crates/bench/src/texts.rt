// The texts that answers are made of.
use super::mistake::Answer;
use std::alloc::Global;
use std::fmt;

// Each byte, behind a blank.
#[derive(Clone, Copy)]
pub struct Spaced<'a>(pub &'a [u8]);

impl<'a> fmt::Display for Spaced<'a> {
    fn fmt<W: fmt::Write>(&self, f: &mut fmt::Formatter<W>) -> fmt::Result {
        for byte in self.0 {
            write!(f, " {byte:02X}")?;
        }
        Ok(())
    }
}

// A refusal by number and name.
#[derive(Drop)]
pub struct Refused<R> {
    pub number: u8,
    pub refusal: R,
}

impl<R: fmt::Debug> fmt::Display for Refused<R> {
    fn fmt<W: fmt::Write>(&self, f: &mut fmt::Formatter<W>) -> fmt::Result {
        write!(f, "refused {} {:?}", self.number, self.refusal)
    }
}

// A text that is the same each time.
// kept: (d) `heap` is handed to what allocates, as std does it; a struct around it would be taken apart at each call.
pub fn plain(heap: Global, text: &str) -> Answer {
    Ok(String::from_str(heap, text)?)
}

// A word, and a number behind it.
pub fn counted(heap: Global, word: &str, count: usize) -> Answer {
    Ok(format!(in heap; "{word} {count}")?)
}

// A word, and a mode behind it.
pub fn with_mode(heap: Global, word: &str, mode: u16) -> Answer {
    Ok(format!(in heap; "{word} {mode:04X}")?)
}

// What is said where something was refused.
pub fn refuse<R: fmt::Debug + Drop>(heap: Global, number: u8, refusal: R) -> Answer {
    let refused = Refused { number, refusal };
    Ok(format!(in heap; "{refused}")?)
}

// A word, and each byte behind it; or that there is none.
pub fn shown(heap: Global, word: &str, bytes: &[u8]) -> Answer {
    if bytes.is_empty() {
        return Ok(format!(in heap; "{word} nothing")?);
    }
    let bytes = Spaced(bytes);
    Ok(format!(in heap; "{word}{bytes}")?)
}
