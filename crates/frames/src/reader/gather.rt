// Gathering the bytes that a candidate's LENGTH announces.
ghost use Rattle.std.specs.Prelude.{◌≡◌, ◌<◌, length as long};
ghost use Rattle.frames.specs.declared.reader.Stage.TheVariants.{Body as gathering};
ghost use Rattle.frames.specs.Reading.{found, holds, Measured, Opened, Reads};

use super::super::finding::{Cause, Finding};
use super::super::frame::{COUNTED, MOST_LENGTH};
use super::judge::judge;
use super::{Reader, Stage};

impl Reader {
    // Takes a LENGTH, and says whether a frame can have it.
    fn measure(&mut self, length: u8) -> bool
        ensures { Measured length result self.new }
    {
        let length = usize::from(length);
        if length < COUNTED || length > MOST_LENGTH {
            self.stage = Stage::Hunting;
            return false;
        }
        self.stage = Stage::Body { length, got: 0 };
        true
    }

    // kept: (d) `Reads` as a clause of three calls: it speaks of a reader before and after, so no type can carry it.
    // Gathers up to the last byte that LENGTH announces; a candidate that lies whole in the stretch is judged there.
    fn gather(&mut self, length: usize, got: usize, stretch: &[u8]) -> (Option<Finding>, usize)
        requires { self.old.stage ≡ gathering length got }
        ensures { Reads (holds self.old) stretch.now (found result.0) result.1 (holds self.new) }
    {
        let missing = length - got;
        if stretch.len() < missing {
            let end = got + stretch.len();
            self.body[got..end].copy_from_slice(stretch);
            self.stage = Stage::Body { length, got: end };
            return (None, stretch.len());
        }
        self.stage = Stage::Hunting;
        if got == 0 {
            return (Some(judge(&stretch[0..missing])), missing);
        }
        self.body[got..length].copy_from_slice(&stretch[0..missing]);
        (Some(judge(&self.body[0..length])), missing)
    }

    // Reads on in a candidate that the hunt has opened.
    pub(crate) fn candidate(&mut self, stretch: &[u8]) -> (Option<Finding>, usize)
        requires { 0 < long stretch.now → Opened self.old.stage }
        ensures { Reads (holds self.old) stretch.now (found result.0) result.1 (holds self.new) }
    {
        let [first, rest @ ..] = stretch else {
            return (None, 0);
        };
        if let Stage::Body { length, got } = self.stage {
            return self.gather(length, got, stretch);
        }
        if !self.measure(*first) {
            let misfit = Finding::Dropped {
                cause: Cause::Length,
                size: 3,
            };
            return (Some(misfit), 1);
        }
        let (finding, gathered) = self.gather(usize::from(*first), 0, rest);
        (finding, 1 + gathered)
    }
}
