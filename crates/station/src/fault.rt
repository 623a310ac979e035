// How an inquiry ends without an answer.
ghost use Rattle.std.specs.Prelude.{◌≡◌};
ghost use Rattle.station.specs.Refusals.{fault_number};

// A fault by name.
#[derive(Clone, Copy, Debug, PartialEq, Eq)]
pub enum Fault {
    // the line had space for none of the four attempts
    NotSent = 21,
    // four attempts, and none was acknowledged
    NotAcknowledged = 22,
    // the card replied ERROR
    ErrorReply = 23,
    // acknowledged, and no answer came in time
    NoAnswer = 24,
    // sent by radio, and no radio answer came in time
    NoRadioAnswer = 25,
}

// kept: (d) `number` of faults and of refusals, each a cast: a trait for both would be longer than the two.
impl Fault {
    pub fn number(self) -> u8
        ensures { result ≡ fault_number self }
    {
        self as u8
    }
}
