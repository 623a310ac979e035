// What a lodged inquiry is collected by.
use std::marker::Model;

// Whose it is, and the inquiry's number. It cannot be let go: only collecting spends it.
pub(crate) struct Slip {
    pub(super) mark: u32,
    pub(super) number: u32,
}

// A slip as the rules have it.
impl Model for Slip {
    ghost use Rattle.station.specs.Stations.{Slip as SlipByRule};

    ghost Value = { SlipByRule };

    ghost view = { λ s. record { mark = s.mark; number = s.number } };
}
