// Serial frames of a radio card: their check value, writing them, and finding them in what a line brings.
#![tactic(auto)]

pub mod crc;
pub mod finding;
pub mod frame;
pub mod numbered;
pub mod reader;
pub mod refusal;
pub mod samples;
#[cfg(test)]
mod tests;
pub mod writing;
