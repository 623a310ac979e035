// What pulses do to an inquiry.
ghost use Rattle.std.specs.Prelude.{◌≡◌, ◌≤◌, true, length};
ghost use Rattle.frames.specs.Reading.{frame_data};
ghost use Rattle.station.specs.Exchange.{after_attempt, begun, ticked};
ghost use Rattle.station.specs.Inquiries.{at_stage, waits_still, under_way, is_due};
ghost use Rattle.station.specs.Stations.{new_inquiry, outcome_at};
ghost use Rattle.station.specs.Answering.{Told};
ghost use Rattle.station.specs.Moving.{Moves};
ghost use Rattle.station.specs.Steps.{Tries};

use super::super::fault::Fault;
use super::super::outcome::Outcome;
use super::super::putting::put_frame;
use super::super::refusal::Refusal;
use super::super::stage::Stage;
use super::{ACKNOWLEDGEMENT_PULSES, Inquiry, MOST_ATTEMPTS};
use frames::frame::Frame;
use frames::numbered::Numbered;
use lines::line::Line;

impl Numbered for Inquiry {
    ghost carried = { λ q. q.number };

    fn number(&self) -> u32 {
        self.number
    }
}

impl Inquiry {
    // A newly lodged inquiry waits.
    pub(crate) fn new(number: u32, frame: Frame) -> Inquiry
        ensures waits { result ≡ new_inquiry number frame.cmd (frame_data frame) }
    {
        Inquiry {
            number,
            frame,
            copies: 0,
            stage: Stage::Waiting,
        }
    }

    // Whether it has not begun.
    pub(crate) fn is_waiting(&self) -> bool
        ensures { result ≡ waits_still self.now.stage }
    {
        matches!(self.stage, Stage::Waiting)
    }

    // Whether it has begun and not ended.
    pub(crate) fn is_under_way(&self) -> bool
        ensures { result ≡ under_way self.now.stage }
    {
        !matches!(self.stage, Stage::Waiting | Stage::Ended(_))
    }

    // Whether an attempt of it is due.
    pub(crate) fn is_due(&self) -> bool
        ensures { result ≡ is_due self.now.stage }
    {
        matches!(self.stage, Stage::Due { .. })
    }

    // It begins, with attempt 1 due.
    pub(crate) fn begin(&mut self)
        requires { waits_still self.old.stage ≡ true }
        ensures begun { self.new ≡ begun self.old }
    {
        self.stage = Stage::Due { attempt: 1 };
    }

    // The attempt has failed: the next one is due; if none is left, the inquiry ends, unsent or not acknowledged.
    pub(super) fn fail(&mut self, attempt: u8)
        requires { self.old.copies ≤ attempt }
        ensures failed { self.new ≡ at_stage self.old (after_attempt self.old.copies attempt) }
    {
        self.stage = if attempt < MOST_ATTEMPTS {
            Stage::Due {
                attempt: attempt + 1,
            }
        } else if self.copies == 0 {
            Stage::Ended(Err(Fault::NotSent))
        } else {
            Stage::Ended(Err(Fault::NotAcknowledged))
        };
    }

    // A period is one pulse shorter, or ends with this pulse.
    // kept: (c) an arm for each period and no `*left -= 1` in one for all, which was tried: what is written through the loan of a variant stays untold (goal `returns-in-Acknowledging`).
    pub(crate) fn tick(&mut self)
        ensures ticked { self.new ≡ ticked self.old }
    {
        match self.stage {
            Stage::Acknowledging { attempt, left } if left <= 1 => self.fail(attempt),
            Stage::Acknowledging { attempt, left } => {
                let left = left - 1;
                self.stage = Stage::Acknowledging { attempt, left };
            }
            Stage::Answering { left } if left <= 1 => {
                self.stage = Stage::Ended(Err(Fault::NoAnswer));
            }
            Stage::Answering { left } => self.stage = Stage::Answering { left: left - 1 },
            Stage::Receiving { left } if left <= 1 => {
                self.stage = Stage::Ended(Err(Fault::NoRadioAnswer));
            }
            Stage::Receiving { left } => self.stage = Stage::Receiving { left: left - 1 },
            Stage::Waiting | Stage::Due { .. } | Stage::Ended(_) => {}
        }
    }

    // A due attempt puts the frame if the line has space, else it is spent unsent; either way its period opens.
    pub(crate) fn attempt<L: Line>(&mut self, line: &mut L)
        ensures tries { Moves L.Line line.old line.new (Tries self.old self.new) }
    {
        if let Stage::Due { attempt } = self.stage {
            let put = put_frame(line, self.frame.cmd(), self.frame.data());
            self.copies += u8::from(put);
            self.stage = Stage::Acknowledging {
                attempt,
                left: ACKNOWLEDGEMENT_PULSES,
            };
        }
    }

    // Its outcome, once it has ended; an answer's data is written to the start of the memory.
    pub(crate) fn tell(&self, memory: &mut [u8]) -> Result<Outcome, Refusal>
        requires { 250 ≤ length memory.old }
        ensures told { Told (outcome_at self.now.copies self.now.stage) memory.old result memory.new }
    {
        let ending = match &self.stage {
            Stage::Ended(Ok(answer)) => {
                let data = answer.data();
                memory[..data.len()].copy_from_slice(data);
                Ok(data.len())
            }
            Stage::Ended(Err(fault)) => Err(*fault),
            _ => return Err(Refusal::NotEnded),
        };
        Ok(Outcome {
            copies: self.copies,
            ending,
        })
    }
}
