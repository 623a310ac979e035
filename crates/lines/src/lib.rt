// Lines: what a line means, a wire of two rings, a tape of a capture, and a box that spoils bytes to order.
#![tactic(auto)]

pub mod far_end;
pub mod fault_box;
pub mod line;
pub mod refusal;
mod ring;
pub mod script;
pub mod tape;
#[cfg(test)]
mod tests;
pub mod wire;
