// How settings change.
ghost use Rattle.std.specs.Prelude.{◌≡◌, is_ok, if◌then◌else◌};
ghost use Rattle.boards.specs.Boards.{admitted, lawful_channel, lawful_power};

use super::super::board::Board;
use super::{FULL_POWER, HIGHEST_CHANNEL, Settings, Unlawful};

impl<B: Board> Settings<B> {
    /// Sets a mode that the kind admits; otherwise nothing changes.
    pub fn set_mode(&mut self, mode: u16) -> Result<(), Unlawful>
        ensures taken { is_ok result ≡ admitted B.Board.kind mode }
        ensures mode { self.new.mode ≡ (if admitted B.Board.kind mode then mode else self.old.mode) }
        ensures channel { self.new.channel ≡ self.old.channel }
        ensures power { self.new.power ≡ self.old.power }
    {
        if !self.board.admits(mode) {
            return Err(Unlawful);
        }
        self.mode = mode;
        Ok(())
    }

    /// Sets a channel up to 21; otherwise nothing changes.
    pub fn set_channel(&mut self, channel: u8) -> Result<(), Unlawful>
        ensures taken { is_ok result ≡ lawful_channel channel }
        ensures channel { self.new.channel ≡ (if lawful_channel channel then channel else self.old.channel) }
        ensures mode { self.new.mode ≡ self.old.mode }
        ensures power { self.new.power ≡ self.old.power }
    {
        if channel > HIGHEST_CHANNEL {
            return Err(Unlawful);
        }
        self.channel = channel;
        Ok(())
    }

    /// Sets a power up to 0x0A on a kind that lets it be set; otherwise nothing changes.
    pub fn set_power(&mut self, power: u8) -> Result<(), Unlawful>
        ensures taken { is_ok result ≡ lawful_power B.Board.kind power }
        ensures power { self.new.power ≡ (if lawful_power B.Board.kind power then power else self.old.power) }
        ensures mode { self.new.mode ≡ self.old.mode }
        ensures channel { self.new.channel ≡ self.old.channel }
    {
        if !self.board.lets_power_be_set() || power > FULL_POWER {
            return Err(Unlawful);
        }
        self.power = power;
        Ok(())
    }
}
