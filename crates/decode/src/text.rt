// Text that is gathered before it is written.
ghost use Rattle.std.specs.Prelude.{◌≡◌, ◌+◌, ◌*◌, ◌≤◌, ◌↔◌, List, ℕ, IsTrue, [], length, take};
ghost use Rattle.decode.specs.Hex.{hex_text};
ghost use Rattle.decode.specs.Text.{Pushed};
ghost use Rattle.decode.specs.declared.text.TheConstants.{MOST};

use super::hex::write_all;
use std::marker::Model;

// How many bytes of text are gathered at most, and how many a line may need.
const MOST: usize = 65536;

const LINE: usize = 1024;

// kept: (a) an array and a count, no `Vec`: making one that cannot fail is promised, and a `Vec` asks for its memory.
#[derive(Drop)]
pub struct Text {
    bytes: [u8; MOST],
    used: usize,
}

// A text is the bytes in use; it never grows beyond the memory that it was made with.
impl Model for Text {
    ghost Value = { List ℕ };

    ghost view = { λ t. take t.used t.bytes };

    ghost invariant = { λ t. (t.used ≤ MOST) × (length t.bytes ≡ MOST) };
}

impl Text {
    pub fn new() -> Text
        ensures { result ≡ [] }
    {
        Text {
            bytes: [0; MOST],
            used: 0,
        }
    }

    // Whether a line more has room.
    pub fn has_room(&self) -> bool
        ensures { IsTrue result ↔ (length self.now + LINE ≤ MOST) }
    {
        self.used <= MOST - LINE
    }

    // The text so far.
    pub fn as_bytes(&self) -> &[u8]
        ensures { result.now ≡ self.now }
    {
        &self.bytes[0..self.used]
    }

    pub fn clear(&mut self)
        ensures { self.new ≡ [] }
    {
        self.used = 0;
    }

    // Adds these bytes, where there is room for them.
    pub fn push(&mut self, more: &[u8])
        ensures { Pushed self.old more.now (length more.now) self.new }
    {
        if more.len() <= MOST - self.used {
            let end = self.used + more.len();
            self.bytes[self.used..end].copy_from_slice(more);
            self.used = end;
        }
    }

    // Adds the bytes as hexadecimal text, each behind a blank, where there is room for them.
    pub fn push_hex(&mut self, data: &[u8])
        ensures { Pushed self.old (hex_text «data».now) (3 * length «data».now) self.new }
    {
        if data.len() <= (MOST - self.used) / 3 {
            let end = self.used + 3 * data.len();
            write_all(&mut self.bytes[self.used..end], data);
            self.used = end;
        }
    }
}
