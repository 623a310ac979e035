// What everything above knows of a line: its meaning, and three calls.
ghost use Rattle.std.specs.Prelude.{◌≡◌, ◌+◌, ◌≤◌, length};
ghost use Rattle.lines.specs.Meaning.{Meaning, Taken, Put};

use crate::refusal::Refusal;

// A line to read from and write to.
pub trait Line {
    // What the line holds.
    ghost meaning: { Self → Meaning };

    // The outgoing bytes never exceed the capacity.
    ghost within: { (x : Self) → length (meaning x).outgoing ≤ (meaning x).capacity };

    // What else a line of this kind has that no call of a line changes, as the size of a ring.
    ghost Fixture: { Type 0 };

    // That part of this line.
    // kept: (d) each call says that it stays, since a type or a ghost field speaks of one state and not of two.
    ghost fixed: { Self → Fixture };

    // The first waiting byte, which is then gone, or none.
    fn take(&mut self) -> Option<u8>
        ensures taken { Taken (meaning self.old) result (meaning self.new) }
        ensures fixed { fixed self.new ≡ fixed self.old };

    // Appends the whole stretch to the outgoing bytes, or refuses it whole.
    fn put(&mut self, bytes: &[u8]) -> Result<(), Refusal>
        ensures put { Put (meaning self.old) bytes.now result (meaning self.new) }
        ensures fixed { fixed self.new ≡ fixed self.old };

    // How many more outgoing bytes the line can hold.
    fn space(&self) -> usize
        ensures left { result + length (meaning self.now).outgoing ≡ (meaning self.now).capacity };
}
