// A script of faults: at which positions a byte is lost or changed.
ghost use Rattle.std.specs.Prelude.{◌≡◌, []};
ghost use Rattle.lines.specs.Faults.{mask_at, spoiled, rising};
ghost use Rattle.lines.specs.Scripts.{Read};

use crate::refusal::Refusal;
use arrayvec::ArrayVec;
use std::marker::Model;

// One fault: the byte at the position is lost under mask 0, and exclusive-ored with another mask.
// kept: (a) mask 0 stands for a loss, since the project gives a script's entries as positions and masks of 8 bits.
#[derive(Clone, Copy, PartialEq, Eq, Debug, Default)]
pub struct Entry {
    pub position: u16,
    pub mask: u8,
}

// How many entries a script has at most.
const MOST: usize = 16;

// Up to 16 entries with strictly rising positions.
#[derive(Default, Drop)]
pub(crate) struct Script {
    entries: ArrayVec<Entry, MOST>,
}

impl Model for Script {
    ghost use Rattle.std.specs.Prelude.{List};
    ghost use Rattle.lines.specs.declared.script.Entry.{Entry};

    ghost Value = { List Entry };

    ghost view = { λ s. s.entries.items };
}

impl TryFrom<&[Entry]> for Script {
    type Error = Refusal;

    ghost try_from_gives = { λ entries r. Read entries.now r };

    // The script with these entries, or why there is none.
    fn try_from(entries: &[Entry]) -> Result<Self, Refusal> {
        // Too many are refused by their number alone, before any is looked at.
        let entries = ArrayVec::try_from(entries).map_err(|_| Refusal::BadScript)?;
        if !rises(entries.as_slice()) {
            return Err(Refusal::BadScript);
        }
        Ok(Script { entries })
    }
}

impl Script {
    // The byte that comes out at a position, or none if it is lost.
    pub(crate) fn spoil(&self, position: u32, byte: u8) -> Option<u8>
        ensures out { result ≡ spoiled self.now position byte }
    {
        match self.mask_at(position) {
            None => Some(byte),
            Some(0) => None,
            Some(mask) => Some(byte ^ mask),
        }
    }

    // The mask for a position, if there is one.
    fn mask_at(&self, position: u32) -> Option<u8>
        ensures found { result ≡ mask_at self.now position }
    {
        self.entries
            .iter()
            .find(|entry| u32::from(entry.position) == position)
            .map(|entry| entry.mask)
    }
}

// Whether each position is above the one before it.
fn rises(entries: &[Entry]) -> bool
    ensures told { result ≡ rising 0 entries.now }
{
    entries.is_sorted_by(|a, b| a.position < b.position)
}
