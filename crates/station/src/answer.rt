// Which data is lawful in which answer.
ghost use Rattle.std.specs.Prelude.{◌≡◌};
ghost use Rattle.frames.specs.Reading.{frame_data};
ghost use Rattle.station.specs.Commands.{is_answer, lawful_answer};

use super::command::{RADIO_ANSWER, answers_some};
use frames::frame::Frame;

// How many bytes a radio address has.
pub(crate) const ADDRESS_LENGTH: usize = 6;

// Whether a CMD answers some request, or is that of a radio answer.
pub(crate) fn is_answer(cmd: u8) -> bool
    ensures { result ≡ is_answer cmd }
{
    cmd == RADIO_ANSWER || answers_some(cmd)
}

// Whether an answer has lawful data: by its CMD, its length and its first byte.
// kept: (a) CMDs as numbers: one `match` over CMD with guards on length, first byte and ranges is a form that the project asks for.
pub(crate) fn is_lawful(frame: &Frame) -> bool
    ensures { result ≡ lawful_answer frame.now.cmd (frame_data frame.now) }
{
    let data = frame.data();
    let count = data.len();
    match frame.cmd() {
        // what was received by radio begins with the six bytes of an address
        RADIO_ANSWER => (ADDRESS_LENGTH..=158).contains(&count),
        // 01 alone is an error; 00 stands before what was asked for
        0x51 | 0x63 | 0x67 if count == 1 => data[0] == 0x01,
        0x51 => (2..=242).contains(&count) && data[0] == 0x00,
        0x63 => count == 2 && data[0] == 0x00 && data[1] <= 21,
        0x67 => count == 3 && data[0] == 0x00,
        // power has no status before it
        0x55 => count == 1 && data[0] <= 0x0A,
        // all others are a status
        cmd => is_answer(cmd) && count == 1 && data[0] <= 0x01,
    }
}
