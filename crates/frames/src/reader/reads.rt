// What a reader does.
ghost use Rattle.std.specs.Prelude.{◌≡◌, ◌<◌, ◌≤◌, [], length};
ghost use Rattle.frames.specs.Promises.{FindsExactly, FindsWritten, StandsAsWritten, CutAnywhere, OneReading};
ghost use Rattle.frames.specs.Reading.{found, holds, Reads};

use super::super::finding::Finding;
use super::super::frame::MOST_LENGTH;
use super::{Reader, Stage};

impl Reader {
    // A reader that holds nothing and hunts.
    pub fn new() -> Reader
        ensures { holds result ≡ [] }
    {
        Reader {
            stage: Stage::Hunting,
            body: [0; MOST_LENGTH],
        }
    }

    // Forgets what is held, a lone 0xFF too, and hunts again; that is no drop.
    pub fn forget(&mut self)
        ensures { holds self.new ≡ [] }
    {
        self.stage = Stage::Hunting;
    }

    // Reads a stretch up to the first thing that it completes: what was found, and how many bytes that used.
    // Where nothing is found yet, the whole stretch is used, and what has begun is held for the next call.
    pub fn read(&mut self, stretch: &[u8]) -> (Option<Finding>, usize)
        ensures reads { Reads (holds self.old) stretch.now (found result.0) result.1 (holds self.new) }
        ensures within { result.1 ≤ length stretch.now }
        ensures some { 0 < length stretch.now → 0 < result.1 }
        ensures exactly { FindsExactly (holds self.old) stretch.now (found result.0) result.1 }
        ensures written { FindsWritten (holds self.old) stretch.now (found result.0) result.1 }
        ensures stands { StandsAsWritten (holds self.old) stretch.now (found result.0) result.1 }
        ensures cut { CutAnywhere (holds self.old) stretch.now (found result.0) result.1 (holds self.new) }
        ensures once { OneReading }
    {
        let hunted = self.hunt(stretch);
        let (finding, more) = self.candidate(&stretch[hunted..]);
        (finding, hunted + more)
    }

    // How many bytes of an unfinished candidate are held.
    pub fn held(&self) -> usize
        ensures { result ≡ length (holds self.now) }
    {
        match self.stage {
            Stage::Hunting => 0,
            Stage::Sync => 1,
            Stage::Start => 2,
            Stage::Body { got, .. } => 3 + got,
        }
    }
}
