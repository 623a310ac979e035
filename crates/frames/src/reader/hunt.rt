// Hunting for the start of a candidate: SYNC directly followed by STX.
ghost use Rattle.std.specs.Prelude.{◌≡◌, ◌<◌, ◌≤◌, ◌++◌, length, take, IfSome, IfNone};
ghost use Rattle.frames.specs.declared.reader.Stage.TheVariants.{Start as started};
ghost use Rattle.frames.specs.Finding.{Waits};
ghost use Rattle.frames.specs.Hunting.{StartsAt, Unmarked};
ghost use Rattle.frames.specs.Reading.{holds, Opened};

use super::super::frame::{STX, SYNC};
use super::{Reader, Stage};

// Where the first SYNC stands that is directly followed by STX, if one is. Mostly it is the first byte, where one
// frame follows another.
fn start_of(bytes: &[u8]) -> Option<usize>
    ensures start { IfSome result (StartsAt bytes.now) }
    ensures none { IfNone result (Unmarked bytes.now (length bytes.now)) }
{
    if let [SYNC, STX, ..] = bytes {
        return Some(0);
    }
    start_in_noise(bytes)
}

// The same, by going through the bytes.
// kept: (b) a hint against inlining: inside `search`, whose place two bytes on LLVM then counts in, a byte of noise takes 7 instructions, and 5 here.
#[inline(never)]
fn start_in_noise(bytes: &[u8]) -> Option<usize>
    ensures start { IfSome result (StartsAt bytes.now) }
    ensures none { IfNone result (Unmarked bytes.now (length bytes.now)) }
{
    bytes
        .windows(2)
        .position(|pair| matches!(pair, [SYNC, STX]))
}

impl Reader {
    // Hunts through a stretch from its first byte on; answers how many bytes that used.
    fn search(&mut self, stretch: &[u8]) -> usize
        ensures within { result ≤ length stretch.now }
        ensures waits { Waits (take result stretch.now) (holds self.new) }
        ensures some { 0 < length stretch.now → 0 < result }
        ensures opened { result < length stretch.now → self.new.stage ≡ started }
    {
        if let Some(at) = start_of(stretch) {
            self.stage = Stage::Start;
            return at + 2;
        }
        self.stage = match stretch {
            [.., last] if *last == SYNC => Stage::Sync,
            _ => Stage::Hunting,
        };
        stretch.len()
    }

    // Goes on hunting, if no candidate has been opened yet; answers how many bytes that used.
    pub(crate) fn hunt(&mut self, stretch: &[u8]) -> usize
        ensures within { result ≤ length stretch.now }
        ensures waits { Waits (holds self.old ++ take result stretch.now) (holds self.new) }
        ensures opened { result < length stretch.now → Opened self.new.stage }
    {
        match (self.stage, stretch) {
            (Stage::Hunting, _) => self.search(stretch),
            (Stage::Sync, []) => 0,
            (Stage::Sync, [first, ..]) if *first == STX => {
                self.stage = Stage::Start;
                1
            }
            (Stage::Sync, _) => self.search(stretch),
            (Stage::Start | Stage::Body { .. }, _) => 0,
        }
    }
}
