// An inquiry: its number, its frame, how often that was put, and how far it has come.
use super::stage::Stage;
use frames::frame::Frame;
use std::marker::Model;

mod hearing;
mod steps;

// How often a frame is tried.
pub(crate) const MOST_ATTEMPTS: u8 = 4;

// An acknowledgement period is the pulses behind the one in which the attempt was due.
const ACKNOWLEDGEMENT_PULSES: u8 = 5;

// The answer period is the pulse that finds the acknowledgement, and those behind it.
const ANSWER_PULSES: u8 = 21;

// The radio period is the pulse that finds the card's answer, and those behind it.
const RADIO_PULSES: u8 = 31;

#[derive(Drop)]
pub(crate) struct Inquiry {
    number: u32,
    frame: Frame,
    copies: u8,
    stage: Stage,
}

// An inquiry as the rules have it, with no more copies than attempts, and no more attempts than four.
impl Model for Inquiry {
    ghost use Rattle.std.specs.Prelude.{◌+◌, ◌≤◌};
    ghost use Rattle.frames.specs.Reading.{frame_data};
    ghost use Rattle.station.specs.Inquiries.{Inquiry as InquiryByRule};
    ghost use Rattle.station.specs.Stages.{stage_of, attempt_of, to_come};

    ghost Value = { InquiryByRule };

    ghost view = { λ q. record { number = q.number; cmd = q.frame.cmd; sent = frame_data q.frame; copies = q.copies; stage = stage_of q.stage } };

    ghost invariant = { λ q. (q.copies + to_come q.stage ≤ attempt_of q.stage) × (attempt_of q.stage ≤ 4) };
}
