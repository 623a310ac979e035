// What a reader finds in the bytes of a line.
use super::frame::Frame;

// Why a candidate is no frame.
#[derive(Clone, Copy, Debug, PartialEq, Eq)]
pub enum Cause {
    // its LENGTH is below 4 or above 254
    Length,
    // its last byte is not ETX
    End,
    // its check value is wrong
    Check,
}

// What is found first: one of two things that a line can bring.
// kept: (d) no `Result<Frame, Dropped>`, since a drop is a finding as a frame is, is counted and answered, and is never passed on by `?`.
#[derive(Clone, Copy)]
pub enum Finding {
    // a right frame
    Frame(Frame),
    // a candidate that is no frame, and how many bytes it had
    Dropped { cause: Cause, size: usize },
}
