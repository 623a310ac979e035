// Board kinds, and the settings of a card on a board.
#![tactic(auto)]

pub mod board;
pub mod settings;
