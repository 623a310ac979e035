// What the program is asked to do.
use thiserror::Error;

pub const HELP: &str = "decode [--hex] [FILE]

Shows what was said on a serial line: reads a capture of its bytes from FILE, or from
standard input where there is none or it is -, and prints a line for each frame and for
each start of a frame that came to nothing, then a summary.

  --hex    the capture is hexadecimal text; white space between digits does not matter
  --help   this text

A frame's line has the offset of its first byte, its command's number and name, and its data,
all in hexadecimal:

  00000007  frame  50 REQ_READ_RADIO_PARAM  04

A drop's line has the offset, the cause and the number of bytes that were dropped:

  0000000F  drop   C wrong check value, 9 bytes

The causes are L (a length that no frame has), E (no end byte) and C (a wrong check value).
";

// A capture to decode.
#[derive(Drop)]
pub struct Capture {
    pub hex: bool,
    // none: standard input
    pub file: Option<String>,
}

#[derive(Drop)]
pub enum Task {
    Help,
    Decode(Capture),
}

// Why the arguments make no task.
#[derive(Debug, Drop, Error)]
pub enum BadUse {
    #[error("unknown option {0}; decode --help says how to use it")]
    UnknownOption(String),
    #[error("more than one file, {0}; decode --help says how to use it")]
    SecondFile(String),
}

// The task that the words after the program's name ask for.
pub fn parse(words: Vec<String>) -> Result<Task, BadUse> {
    let mut hex = false;
    let mut file = None;
    for word in words {
        match word.as_str() {
            "--help" | "-h" => return Ok(Task::Help),
            "--hex" => hex = true,
            option if option.starts_with('-') && option != "-" => {
                return Err(BadUse::UnknownOption(word));
            }
            _ if file.is_some() => return Err(BadUse::SecondFile(word)),
            _ => file = Some(word),
        }
    }
    Ok(Task::Decode(Capture { hex, file }))
}
