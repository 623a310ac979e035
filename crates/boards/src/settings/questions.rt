// Settings at the start, and what can be asked of them.
ghost use Rattle.std.specs.Prelude.{◌≡◌};

use super::super::board::Board;
use super::{FULL_POWER, Settings};

impl<B: Board> Settings<B> {
    /// The settings at the start: the kind's default mode, channel 0, power 0x0A.
    pub fn new(board: B) -> Settings<B>
        ensures mode { result.mode ≡ B.Board.kind.default_mode }
        ensures channel { result.channel ≡ 0 }
        ensures power { result.power ≡ 0x0A }
    {
        let mode = board.first_mode();
        Settings {
            board,
            mode,
            channel: 0,
            power: FULL_POWER,
        }
    }

    /// The mode.
    pub fn mode(&self) -> u16
        ensures mode { result ≡ self.now.mode }
    {
        self.mode
    }

    /// The channel.
    pub fn channel(&self) -> u8
        ensures channel { result ≡ self.now.channel }
    {
        self.channel
    }

    /// The power.
    pub fn power(&self) -> u8
        ensures power { result ≡ self.now.power }
    {
        self.power
    }
}
