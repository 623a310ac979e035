// What a whole capture held, counted.
ghost use Rattle.std.specs.Prelude.{◌≡◌, ◌<◌, length, fold, slice_index, slice_set};
ghost use Rattle.decode.specs.Counts.{raised, raised_at, DropCounted};

use frames::finding::Cause;

#[derive(Drop)]
pub struct Tally {
    // how many bytes were read
    pub bytes: u64,
    // how many of them belong to frames and to candidates that were dropped
    pub used: u64,
    // how many frames had each command
    pub frames: [u64; 256],
    // how many candidates were dropped for each cause
    pub drops: [u64; 3],
}

impl Tally {
    pub fn new() -> Tally {
        Tally {
            bytes: 0,
            used: 0,
            frames: [0; 256],
            drops: [0; 3],
        }
    }

    // A frame with this command, of so many bytes.
    pub fn frame(&mut self, cmd: u8, size: u64)
        ensures frames { self.new.frames ≡ slice_set self.old.frames cmd (raised (slice_index self.old.frames cmd) 1) }
        ensures used { self.new.used ≡ raised self.old.used size }
        ensures drops { self.new.drops ≡ self.old.drops }
        ensures bytes { self.new.bytes ≡ self.old.bytes }
    {
        raise(&mut self.frames, usize::from(cmd));
        self.used = self.used.saturating_add(size);
    }

    // A dropped candidate of so many bytes.
    pub fn drop(&mut self, cause: Cause, size: u64)
        ensures counted { DropCounted self.old cause self.new }
        ensures used { self.new.used ≡ raised self.old.used size }
        ensures frames { self.new.frames ≡ self.old.frames }
        ensures bytes { self.new.bytes ≡ self.old.bytes }
    {
        raise(&mut self.drops, cause as usize);
        self.used = self.used.saturating_add(size);
    }

    pub fn all_frames(&self) -> u64 {
        total(&self.frames)
    }

    pub fn all_drops(&self) -> u64 {
        total(&self.drops)
    }

    // The bytes that belong to nothing, where so many are still held at the end.
    pub fn noise(&self, held: u64) -> u64 {
        self.bytes.saturating_sub(self.used).saturating_sub(held)
    }
}

// Raises the count at a place by one.
fn raise(counts: &mut [u64], place: usize)
    requires { place < length counts.old }
    ensures { counts.new ≡ raised_at counts.old place }
{
    counts[place] = counts[place].saturating_add(1);
}

fn total(counts: &[u64]) -> u64
    ensures { result ≡ fold raised 0 counts.now }
{
    counts
        .iter()
        .fold(0, |sum: u64, count| sum.saturating_add(*count))
}
