// Why this level refuses a call.
ghost use Rattle.std.specs.Prelude.{◌≡◌};
ghost use Rattle.frames.specs.Refusals.{refusal_number};

// A refusal by name; its number is the one in the price sheet's list of causes.
#[derive(Clone, Copy, Debug, PartialEq, Eq)]
pub enum Refusal {
    // more DATA bytes than a frame can carry
    DataTooLong = 9,
    // the memory handed over is shorter than the frame
    MemoryShort = 10,
}

// kept: (a) no trait over the refusals of all levels: each level numbers its own, and can be bought without the others.
impl Refusal {
    pub fn number(self) -> u8
        ensures { result ≡ refusal_number self }
    {
        self as u8
    }
}
