// Why lodging or collecting is refused.
ghost use Rattle.std.specs.Prelude.{◌≡◌};
ghost use Rattle.station.specs.Refusals.{refusal_number};

// A refusal by name; lodging knows the first four, collecting the others, each in this order.
#[derive(Clone, Copy, Debug, PartialEq, Eq)]
pub enum Refusal {
    // the CMD is no request of the table
    UnknownCommand = 1,
    // the request does not carry so many data bytes
    DataLength = 2,
    // all eight places are taken
    PlacesTaken = 3,
    // the last number has been given
    NumbersUsedUp = 4,
    // the memory handed over is shorter than 250 bytes
    MemoryShort = 5,
    // the slip is another station's
    OtherMark = 6,
    // no inquiry of this number is held
    NumberNotHeld = 7,
    // the inquiry has not ended
    NotEnded = 8,
}

// kept: (a) no trait over the refusals of all levels: each level numbers its own, and can be bought without the others.
impl Refusal {
    pub fn number(self) -> u8
        ensures { result ≡ refusal_number self }
    {
        self as u8
    }
}
