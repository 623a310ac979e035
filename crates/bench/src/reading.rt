// What a reader of frames finds in bytes of a line.
use super::mistake::Answer;
use super::texts::Spaced;
use frames::finding::{Cause, Finding};
use frames::reader::Reader;
use std::alloc::Global;
use std::fmt;

// Has a reader read a stretch whole, and says all that it finds, in one line.
pub fn findings(heap: Global, reader: &mut Reader, stretch: &[u8]) -> Answer {
    let count = stretch.len();
    let mut text = format!(in heap; "read {count}:")?;
    let mut rest = stretch;
    // kept: (d) a loop, as in `station` and `decode`: an iterator would be a struct and an impl with its laws, and `decode` stops in between where it has no more room.
    while !rest.is_empty() {
        let (finding, used) = reader.read(rest);
        rest = &rest[used..];
        write!(text, "{}", Told(finding))?;
    }
    write!(text, " held {}", reader.held())?;
    Ok(text)
}

// What is told of the end of one reading.
#[derive(Clone, Copy)]
struct Told(Option<Finding>);

impl fmt::Display for Told {
    fn fmt<W: fmt::Write>(&self, f: &mut fmt::Formatter<W>) -> fmt::Result {
        match &self.0 {
            Some(Finding::Frame(frame)) => {
                let cmd = frame.cmd();
                let data = Spaced(frame.data());
                write!(f, " frame {cmd:02X}{data};")
            }
            Some(Finding::Dropped { cause, size }) => {
                // kept: (a) the letters stand here and in `decode`: `frames` names causes and prints none, and no crate above it is common to both programs.
                let letter = match cause {
                    Cause::Length => 'L',
                    Cause::End => 'E',
                    Cause::Check => 'C',
                };
                write!(f, " drop {letter} {size};")
            }
            None => f.write_str(" nothing yet;"),
        }
    }
}
