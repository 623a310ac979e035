// Lodging an inquiry, and collecting its outcome.
ghost use Rattle.std.specs.Prelude.{◌≡◌, length};
ghost use Rattle.station.specs.Stations.{lodge_cause, lodge_answer, lodge_after, collect_answer};
ghost use Rattle.station.specs.Answering.{Told, Collected};

use super::super::command::admit;
use super::super::inquiry::Inquiry;
use super::super::outcome::{LEAST_MEMORY, Outcome};
use super::super::refusal::Refusal;
use super::super::slip::Slip;
use super::Station;
use frames::frame::Frame;

impl Station {
    // Takes a place and the next number for an inquiry, and gives the slip by which its outcome is collected.
    // kept: (a) CMD and data and no `&Frame`, since they are what a caller lodges, and more than a frame can carry is refused.
    pub(crate) fn lodge(&mut self, cmd: u8, data: &[u8]) -> Result<Slip, Refusal>
        ensures answer { result ≡ lodge_answer self.old (lodge_cause self.old cmd «data».now) }
        ensures after { self.new ≡ lodge_after self.old cmd «data».now (lodge_cause self.old cmd «data».now) }
    {
        admit(cmd, data.len())?;
        if self.places.are_taken() {
            return Err(Refusal::PlacesTaken);
        }
        let number = self.next.ok_or(Refusal::NumbersUsedUp)?;
        // no row of the table admits more data than a frame can carry
        let frame = Frame::of(cmd, data).map_err(|_| Refusal::DataLength)?;
        self.places.add(Inquiry::new(number, frame));
        self.next = number.checked_add(1);
        Ok(Slip {
            mark: self.mark,
            number,
        })
    }

    // The outcome that a slip can be handed now; answer data is written to the memory.
    fn outcome(&self, slip: &Slip, memory: &mut [u8]) -> Result<Outcome, Refusal>
        ensures told { Told (collect_answer self.now slip.now (length memory.old)) memory.old result memory.new }
    {
        if memory.len() < LEAST_MEMORY {
            return Err(Refusal::MemoryShort);
        }
        if slip.mark != self.mark {
            return Err(Refusal::OtherMark);
        }
        let held = self.places.held(slip.number);
        let inquiry = held.ok_or(Refusal::NumberNotHeld)?;
        inquiry.tell(memory)
    }

    // Hands out the outcome of an inquiry that has ended, frees its place and ends the slip; else the slip comes back.
    pub(crate) fn collect(
        &mut self,
        slip: Slip,
        memory: &mut [u8],
    ) -> Result<Outcome, (Slip, Refusal)>
        ensures collected { Collected self.old slip memory.old result self.new memory.new }
    {
        // kept: (d) no `map_err`, since the slip is spent in one arm and handed back in the other, and a closure would take it in both.
        match self.outcome(&slip, memory) {
            Ok(outcome) => {
                let Slip { mark: _, number } = slip;
                self.places.free(number);
                Ok(outcome)
            }
            Err(refusal) => Err((slip, refusal)),
        }
    }
}
