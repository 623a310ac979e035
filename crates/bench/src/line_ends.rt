// The ends of lines that are not the near one, by the kind of line.
use super::command::EndCall;
use super::line_calls::gathered;
use super::mistake::{Answer, Mistake};
use super::rig::End;
use super::texts::{Refused, counted, shown};
use lines::far_end::FarEnd;
use lines::fault_box::FaultBox;
use lines::line::Line;
use lines::tape::Tape;
use std::alloc::Global;

// The far end of a wire.
#[derive(Clone, Copy)]
pub struct WireEnd;

impl<L: FarEnd> End<L> for WireEnd {
    const KIND: &'static str = "a wire";

    fn answer(&self, heap: Global, line: &mut L, call: &EndCall) -> Answer {
        match call {
            EndCall::Bring(bytes) => bring(heap, line, bytes.as_slice()),
            EndCall::Carry(most) => {
                let carried = gathered(heap, *most, || line.carry())?;
                shown(heap, "carried", carried.as_slice())
            }
            EndCall::Sent => Err(Mistake::NotFor(<WireEnd as End<L>>::KIND)),
        }
    }
}

// Brings bytes one by one, up to the first that is refused.
fn bring<L: FarEnd>(heap: Global, line: &mut L, bytes: &[u8]) -> Answer {
    let refused = bytes.iter().enumerate().find_map(|(count, &byte)| {
        let refusal = line.bring(byte).err()?;
        Some((count, refusal))
    });
    match refused {
        None => counted(heap, "brought", bytes.len()),
        Some((count, refusal)) => {
            let number = refusal.number();
            let refused = Refused { number, refusal };
            Ok(format!(in heap; "brought {count}, {refused}")?)
        }
    }
}

// The end of a tape that keeps what was sent.
#[derive(Clone, Copy)]
pub struct TapeEnd;

impl<L: Keeps> End<L> for TapeEnd {
    const KIND: &'static str = "a tape";

    fn answer(&self, heap: Global, line: &mut L, call: &EndCall) -> Answer {
        match call {
            EndCall::Sent => shown(heap, "sent", line.kept()),
            EndCall::Bring(_) | EndCall::Carry(_) => {
                Err(Mistake::NotFor(<TapeEnd as End<L>>::KIND))
            }
        }
    }
}

// A line that keeps what is put on it.
pub trait Keeps: Line {
    fn kept(&self) -> &[u8];
}

impl<'a> Keeps for Tape<'a> {
    fn kept(&self) -> &[u8] {
        self.sent()
    }
}

impl<L: Keeps> Keeps for FaultBox<L> {
    fn kept(&self) -> &[u8] {
        self.below().kept()
    }
}
