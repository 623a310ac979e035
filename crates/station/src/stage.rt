// How far an inquiry has come.
use super::fault::Fault;
use frames::frame::Frame;

#[derive(Clone, Copy)]
pub(crate) enum Stage {
    // it has not begun
    Waiting,
    // this attempt goes out in the pulse that runs
    Due { attempt: u8 },
    // the acknowledgement period of this attempt, which ends with the so-manieth pulse from now
    Acknowledging { attempt: u8, left: u8 },
    // the answer period, likewise
    Answering { left: u8 },
    // the radio period, likewise
    Receiving { left: u8 },
    // it has ended with this answer, or without one
    Ended(Result<Frame, Fault>),
}
