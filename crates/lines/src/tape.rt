// A tape: the rest of a capture to read, and a record of what was sent.
ghost use Rattle.std.specs.Prelude.{◌≡◌, ◌≤◌, length};

use crate::line::Line;
use crate::refusal::Refusal;

// How many outgoing bytes a tape keeps.
const CAPACITY: usize = 1024;

// The bytes still to read, and the bytes sent, which stand in the first `len` places.
// kept: (b) no `ArrayVec` for the bytes sent: its `clear` writes over each of them, where this one forgets how many they are.
// kept: (d) no model: `meaning` of the trait is its view, and a model would say the same once more.
#[derive(Drop)]
pub struct Tape<'a> {
    rest: &'a [u8],
    sent: [u8; CAPACITY],
    len: usize,
    ghost whole: { length sent ≡ 1024 },
    ghost within: { len ≤ 1024 },
}

impl<'a> Tape<'a> {
    ghost use Rattle.std.specs.Prelude.{[]};
    ghost use Rattle.lines.specs.Tapes.{taped, Cleared};

    // A tape that has the whole capture still to read, and nothing sent.
    pub fn new(capture: &'a [u8]) -> Self
        ensures whole { taped result ≡ record { waiting = capture.now; outgoing = []; capacity = 1024 } }
    {
        Tape {
            rest: capture,
            sent: [0; CAPACITY],
            len: 0,
        }
    }

    // The bytes sent so far.
    pub fn sent(&self) -> &[u8]
        ensures all { result.now ≡ (taped self.now).outgoing }
    {
        &self.sent[0..self.len]
    }

    // Forgets the bytes sent, which leaves the whole space.
    pub fn clear(&mut self)
        ensures cleared { Cleared (taped self.old) (taped self.new) }
    {
        self.len = 0;
    }
}

impl<'a> Line for Tape<'a> {
    ghost use Rattle.lines.specs.Tapes.{taped, taped_within};

    ghost meaning = { taped };

    ghost within = { taped_within };

    ghost Fixture = { Unit {0} };

    ghost fixed = { λ _. tt };

    fn take(&mut self) -> Option<u8> {
        let (first, rest) = self.rest.split_first()?;
        self.rest = rest;
        Some(*first)
    }

    fn put(&mut self, bytes: &[u8]) -> Result<(), Refusal> {
        if self.space() < bytes.len() {
            return Err(Refusal::NoSpace);
        }
        let end = self.len + bytes.len();
        self.sent[self.len..end].copy_from_slice(bytes);
        self.len = end;
        Ok(())
    }

    fn space(&self) -> usize {
        CAPACITY - self.len
    }
}
