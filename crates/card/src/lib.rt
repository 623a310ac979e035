// The level of the card: what its rules promise, and its ground floor, passed on under this name.
#![tactic(auto)]

pub use boards::{board, settings};
pub use parameters::{image, made, noted, parameter, refusal, route, store, table, value};

pub mod laws;
pub mod samples;
