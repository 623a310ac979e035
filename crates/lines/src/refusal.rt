// Why a line or a fault box refuses a call.
ghost use Rattle.std.specs.Prelude.{◌≡◌};
ghost use Rattle.lines.specs.Refusals.{refusal_number};

// A refusal; it changes nothing.
#[derive(Clone, Copy, PartialEq, Eq, Debug)]
pub enum Refusal {
    // The stretch is longer than the space, or the ring that takes the byte is full.
    NoSpace = 11,
    // The script has over 16 entries, or its positions do not rise.
    BadScript = 14,
}

// kept: (a) no trait over the refusals of all levels: each level numbers its own, and can be bought without the others.
impl Refusal {
    // The number by which a refusal is known outside.
    pub fn number(self) -> u8
        ensures numbered { result ≡ refusal_number self }
    {
        self as u8
    }
}
