// A fault box: a line made of any other line, whose waiting bytes it loses or changes by a script.
ghost use Rattle.std.specs.Prelude.{◌≤◌};
ghost use Rattle.lines.specs.Faults.{past_all};

use crate::far_end::FarEnd;
use crate::line::Line;
use crate::refusal::Refusal;
use crate::script::{Entry, Script};

// The position behind the last one that a script can name, where the count stops.
// kept: (d) a count that stops is plainer than an `Option<u16>`, since the laws speak of it as the number of bytes taken.
const PAST_ALL: u32 = 65_536;

// The line below, the script, and the position of the next byte taken from below.
#[derive(Drop)]
pub struct FaultBox<L> {
    below: L,
    script: Script,
    position: u32,
    ghost counted: { position ≤ past_all },
}

impl<L: Line> FaultBox<L> {
    ghost use Rattle.std.specs.Prelude.{◌≡◌, []};
    ghost use Rattle.lines.specs.Boxes.{box_meaning, EmptyScriptIsClear};
    ghost use Rattle.lines.specs.Faults.{PositionCountsBytes};
    ghost use Rattle.lines.specs.Scripts.{Loaded};

    // A box around a line, with an empty script.
    pub fn new(below: L) -> Self
        ensures below { result.below ≡ below }
        ensures empty { result.script ≡ [] }
        ensures first { result.position ≡ 0 }
        ensures same { box_meaning L.Line.meaning result ≡ L.Line.meaning below }
        ensures clear { EmptyScriptIsClear }
        ensures counting { PositionCountsBytes }
    {
        FaultBox {
            below,
            script: Script::default(),
            position: 0,
        }
    }

    // Puts another script in the place of the one before, or refuses it.
    pub fn load(&mut self, entries: &[Entry]) -> Result<(), Refusal>
        ensures loaded { Loaded self.old.script entries.now result self.new.script }
        ensures below { self.new.below ≡ self.old.below }
        ensures position { self.new.position ≡ self.old.position }
    {
        self.script = Script::try_from(entries)?;
        Ok(())
    }

    // A look at the line below.
    pub fn below(&self) -> &L
        ensures below { result.now ≡ self.now.below }
    {
        &self.below
    }

    // The line below, as it is now.
    pub fn into_below(self) -> L
        ensures below { result ≡ self.below }
    {
        let FaultBox {
            below,
            script: _,
            position: _,
        } = self;
        below
    }
}

impl<L: Line> Line for FaultBox<L> {
    ghost use Rattle.std.specs.Prelude.{◌≡◌, List};
    ghost use Rattle.lines.specs.declared.script.Entry.{Entry};
    ghost use Rattle.lines.specs.Boxes.{boxed, box_meaning, box_fixed, TakenThrough, PutBelow};
    ghost use Rattle.lines.specs.Meaning.{Taken, Put};

    ghost meaning = { box_meaning L.Line.meaning };

    ghost within = { λ b. L.Line.within b.below };

    ghost Fixture = { List Entry × L.Line.Fixture };

    ghost fixed = { box_fixed L.Line.fixed };

    fn take(&mut self) -> Option<u8>
        ensures taken { Taken (box_meaning L.Line.meaning self.old) result (box_meaning L.Line.meaning self.new) }
        ensures fixed { box_fixed L.Line.fixed self.new ≡ box_fixed L.Line.fixed self.old }
        ensures through { TakenThrough (boxed L.Line.meaning self.old) result (boxed L.Line.meaning self.new) }
    {
        // kept: (c) a loop, since `find_map` over `iter::from_fn` is not proved: its goal `find_map-requires-clause-finite` is `⊥`.
        while let Some(byte) = self.below.take() {
            let position = self.position;
            self.position = (position + 1).min(PAST_ALL);
            if let Some(out) = self.script.spoil(position, byte) {
                return Some(out);
            }
        }
        None
    }

    fn put(&mut self, bytes: &[u8]) -> Result<(), Refusal>
        ensures put { Put (box_meaning L.Line.meaning self.old) bytes.now result (box_meaning L.Line.meaning self.new) }
        ensures fixed { box_fixed L.Line.fixed self.new ≡ box_fixed L.Line.fixed self.old }
        ensures through { PutBelow (boxed L.Line.meaning self.old) bytes.now result (boxed L.Line.meaning self.new) }
    {
        self.below.put(bytes)
    }

    fn space(&self) -> usize {
        self.below.space()
    }
}

impl<L: FarEnd> FarEnd for FaultBox<L> {
    ghost use Rattle.std.specs.Prelude.{◌∷◌};
    ghost use Rattle.lines.specs.Boxes.{box_setting};

    ghost wire = { λ b. L.FarEnd.wire b.below };

    ghost boxes = { λ b. box_setting b ∷ L.FarEnd.boxes b.below };

    fn bring(&mut self, byte: u8) -> Result<(), Refusal> {
        self.below.bring(byte)
    }

    fn carry(&mut self) -> Option<u8> {
        self.below.carry()
    }
}
