// A reader of frames: what it holds between calls.
ghost use Rattle.std.specs.Prelude.{◌≡◌, ◌<◌, length, All};
ghost use Rattle.std.proofs.Props.{props};
ghost use Rattle.frames.specs.Stages.{Unfinished};

use super::frame::MOST_LENGTH;

mod gather;
mod hunt;
mod judge;
mod reads;

// How far a candidate has come.
#[derive(Clone, Copy, Debug, PartialEq, Eq)]
pub enum Stage {
    // none has begun
    Hunting,
    // SYNC is held
    Sync,
    // SYNC and STX are held, LENGTH is next
    Start,
    // SYNC, STX, LENGTH and `got` of the bytes that it announces are held
    Body { length: usize, got: usize },
}

// kept: (a) no model: that of a `Copy` type may forget nothing, and what a reader holds forgets the rest of its array.
#[derive(Clone, Copy)]
pub struct Reader {
    stage: Stage,
    // the bytes gathered behind LENGTH
    // kept: (a) no `ArrayVec<u8, 254>`, which is not Copy, as a reader is; and no Vec, since a pulse reads in fixed memory
    body: [u8; MOST_LENGTH],
    ghost open: { Unfinished stage },
    ghost whole: { length body ≡ 254 },
    ghost bytes: { All (λ b. b < 256) body } by { Prim.hlevel props },
}
