// Calls that need nothing made before.
use super::command::FreeCall;
use super::mistake::Answer;
use super::settings_subject::{Admits, Fixed};
use super::texts::{refuse, shown};
use frames::writing::write;
use std::alloc::Global;

pub fn answer_free(heap: Global, call: &FreeCall) -> Answer {
    match call {
        FreeCall::Write { memory, cmd, data } => written(heap, *memory, *cmd, data.as_slice()),
        FreeCall::Board(kind) => kind.apply(Fixed { heap }),
        FreeCall::Admits(kind, mode) => kind.apply(Admits { heap, mode: *mode }),
    }
}

// Writes a frame into so many bytes of memory, and shows it.
fn written(heap: Global, memory: usize, cmd: u8, data: &[u8]) -> Answer {
    let mut memory = vec![in heap; 0u8; memory]?;
    match write(&mut memory, cmd, data) {
        Ok(count) => shown(heap, "wrote", &memory[..count]),
        Err(refusal) => refuse(heap, refusal.number(), refusal),
    }
}
