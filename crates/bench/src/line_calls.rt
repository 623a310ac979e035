// What is said to a line, and what it says.
use super::command::LineCall;
use super::mistake::{Answer, Mistake};
use super::reading::findings;
use super::rig::{End, Rig, Scripted};
use super::texts::{counted, refuse, shown};
use lines::line::Line;
use lines::refusal::Refusal;
use std::alloc::{AllocError, Global};
use std::iter;

impl<L: Line + Scripted, E: End<L>> Rig<L, E> {
    pub fn answer_call(&mut self, heap: Global, call: &LineCall) -> Answer {
        match call {
            LineCall::Script(entries) => {
                let loaded = self
                    .line
                    .load_script(entries.as_slice())
                    .ok_or(Mistake::NoBox)?;
                done(heap, "loaded", entries.len(), loaded)
            }
            LineCall::Take(most) => shown(heap, "took", self.taken(heap, *most)?.as_slice()),
            LineCall::Put(bytes) => done(heap, "put", bytes.len(), self.line.put(bytes.as_slice())),
            LineCall::Space => counted(heap, "space", self.line.space()),
            LineCall::Read(most) => {
                let bytes = self.taken(heap, *most)?;
                findings(heap, &mut self.reader, bytes.as_slice())
            }
            LineCall::Forget => self.forget(heap),
            LineCall::End(call) => self.end.answer(heap, &mut self.line, call),
        }
    }

    fn taken(&mut self, heap: Global, most: Option<usize>) -> Result<Vec<u8>, AllocError> {
        gathered(heap, most, || self.line.take())
    }

    fn forget(&mut self, heap: Global) -> Answer {
        let held = self.reader.held();
        self.reader.forget();
        counted(heap, "forgot", held)
    }
}

// Gathers bytes until there is none, or as many as are asked for.
pub fn gathered<F: FnMut() -> Option<u8>>(
    heap: Global,
    most: Option<usize>,
    next: F,
) -> Result<Vec<u8>, AllocError>
    requires { (state : F) → F.pre state }
{
    iter::from_fn(next)
        .take(most.unwrap_or(usize::MAX))
        .collect(heap)
}

// What was done with so many, or why the line refused it.
fn done(heap: Global, word: &str, count: usize, outcome: Result<(), Refusal>) -> Answer {
    match outcome {
        Ok(()) => counted(heap, word, count),
        Err(refusal) => refuse(heap, refusal.number(), refusal),
    }
}
