// How an inquiry came out.
use super::fault::Fault;
use frames::frame::MOST_DATA;

// The least memory with which one collects: room for all that a frame can carry.
pub(crate) const LEAST_MEMORY: usize = MOST_DATA;

// How it ended, and how often its frame was put.
#[derive(Clone, Copy)]
pub(crate) struct Outcome {
    pub copies: u8,
    // the length of the answer's data, or why there is no answer
    pub ending: Result<usize, Fault>,
}
