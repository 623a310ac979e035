// A station: it sends inquiries to a card over a line, and gives each inquiry one outcome.
use super::places::Places;
use frames::reader::Reader;
use std::marker::Model;

mod exchanging;
mod pulsing;

// Its mark, the next number, its inquiries and its reader of frames.
#[derive(Drop)]
pub(crate) struct Station {
    mark: u32,
    // none, once the last number has been given
    next: Option<u32>,
    places: Places,
    reader: Reader,
}

// A station as the rules have it, with one inquiry under way at a time.
impl Model for Station {
    ghost use Rattle.frames.specs.Reading.{holds};
    ghost use Rattle.station.specs.Stations.{Station as StationByRule};

    ghost Value = { StationByRule };

    ghost use Rattle.station.specs.Tables.{OneAtATime};
    ghost use Rattle.station.specs.Working.{next_number};

    ghost view = { λ s. record { mark = s.mark; next = next_number s.next; places = s.places; held = holds s.reader } };

    ghost invariant = { λ s. OneAtATime s.places };
}
