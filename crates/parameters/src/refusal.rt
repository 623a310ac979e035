// Why bytes are not opened as an image.
ghost use Rattle.std.specs.Prelude.{◌≡◌};
ghost use Rattle.parameters.specs.Refusals.{refusal_number};

/// Why bytes are not opened as an image.
#[derive(Clone, Copy, Debug, PartialEq, Eq)]
pub enum Refusal {
    /// They are not as many as an image has.
    WrongLength = 12,
    /// A value is unlawful, or an unused byte is not 0.
    UnlawfulBytes = 13,
}

// kept: (a) no trait over the refusals of all levels: each level numbers its own, and can be bought without the others.
impl Refusal {
    /// The number by which the refusal is told.
    pub fn number(self) -> u8
        ensures number { result ≡ refusal_number self }
    {
        self as u8
    }
}
