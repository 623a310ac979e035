// The settings of a card: mode, channel and power.
ghost use Rattle.std.specs.Prelude.{◌≡◌, ◌≤◌, true};
ghost use Rattle.boards.specs.Boards.{admitted};

use super::board::Board;

mod changes;
mod questions;

// The highest channel.
const HIGHEST_CHANNEL: u8 = 21;

// The highest power, with which every board starts.
const FULL_POWER: u8 = 0x0A;

/// The setting was not taken: it is not lawful, or the kind does not admit it.
// kept: (a) not the `Unlawful` of `parameters`: neither crate stands on the other, and each can be bought alone.
#[derive(Clone, Copy, Debug, PartialEq, Eq)]
pub struct Unlawful;

/// The settings of a card with this kind of board.
#[derive(Drop)]
pub struct Settings<B: Board> {
    board: B,
    mode: u16,
    channel: u8,
    power: u8,
    // The kind admits the mode.
    pub ghost modes: { admitted B.Board.kind mode ≡ true },
    // The channel is lawful.
    pub ghost channels: { channel ≤ 21 },
    // The power is lawful.
    pub ghost powers: { power ≤ 0x0A },
}
