// What a whole candidate comes to.
ghost use Rattle.std.specs.Prelude.{◌≡◌, ◌+◌, ◌*◌, ◌∷◌, length as long, ◌==◌};
ghost use Rattle.frames.specs.Crc.{crc_of};
ghost use Rattle.frames.specs.Finding.{Sized, verdict};
ghost use Rattle.frames.specs.Reading.{thing};

use super::super::crc::crc_on;
use super::super::finding::{Cause, Finding};
use super::super::frame::{ETX, Frame};

// Whether the stored bytes are the check value of LENGTH and what stands before them.
fn check_holds(length: u8, front: &[u8], low: u8, high: u8) -> bool
    ensures { result ≡ (low + 256 * high == crc_of (length ∷ front.now)) }
{
    u16::from_le_bytes([low, high]) == crc_on(crc_on(0, &[length]), front)
}

// Judges the bytes behind LENGTH, as many as it announces: the last byte first, then the check value.
pub(crate) fn judge(body: &[u8]) -> Finding
    requires { Sized (long body.now) }
    ensures { thing result ≡ verdict (long body.now) body.now }
{
    let size = body.len() + 3;
    let [front @ .., low, high, last] = body else {
        unreachable!()
    };
    if *last != ETX {
        return Finding::Dropped {
            cause: Cause::End,
            size,
        };
    }
    if !check_holds(body.len() as u8, front, *low, *high) {
        return Finding::Dropped {
            cause: Cause::Check,
            size,
        };
    }
    let [cmd, data @ ..] = front else {
        unreachable!()
    };
    Finding::Frame(Frame::new(*cmd, data))
}
