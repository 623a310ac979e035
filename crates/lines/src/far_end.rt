// The other end of a wire, however many boxes stand around it.
ghost use Rattle.std.specs.Prelude.{◌≡◌, List};
ghost use Rattle.lines.specs.Boxes.{Setting, through_boxes};
ghost use Rattle.lines.specs.Runs.{GoesOn, brings, carries};
ghost use Rattle.lines.specs.Wires.{Wired, Brought, Carried};

use crate::line::Line;
use crate::refusal::Refusal;

// What brings bytes to a line and carries its outgoing bytes off, one at a call.
pub trait FarEnd: Line {
    // The wire itself.
    ghost wire: { Self → Wired };

    // The boxes around it, the outermost first.
    ghost boxes: { Self → List Setting };

    // Adds a byte behind those that wait, or refuses it.
    fn bring(&mut self, byte: u8) -> Result<(), Refusal>
        ensures brought { Brought (wire self.old) byte result (wire self.new) }
        ensures law { GoesOn (wire self.old) (brings byte result) (wire self.new) }
        ensures fixed { Self.Line.fixed self.new ≡ Self.Line.fixed self.old }
        ensures boxes { boxes self.new ≡ boxes self.old }
        ensures heard { Self.Line.meaning self.new ≡ through_boxes (boxes self.new) (wire self.new).near };

    // The first outgoing byte, which is then gone, or none.
    fn carry(&mut self) -> Option<u8>
        ensures carried { Carried (wire self.old) result (wire self.new) }
        ensures law { GoesOn (wire self.old) (carries result) (wire self.new) }
        ensures fixed { Self.Line.fixed self.new ≡ Self.Line.fixed self.old }
        ensures boxes { boxes self.new ≡ boxes self.old }
        ensures heard { Self.Line.meaning self.new ≡ through_boxes (boxes self.new) (wire self.new).near };
}
