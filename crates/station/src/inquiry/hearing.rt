// What the frames that are found do to an inquiry.
ghost use Rattle.std.specs.Prelude.{◌≡◌, ◌≤◌, take};
ghost use Rattle.std.specs.Str.{bytes_eq};
ghost use Rattle.frames.specs.Finding.{frame as a_frame};
ghost use Rattle.frames.specs.Reading.{frame_data};
ghost use Rattle.station.specs.Inquiries.{at_stage};
ghost use Rattle.station.specs.Exchange.{in_acknowledgement, in_answer, in_radio, awaits};
ghost use Rattle.station.specs.Steps.{hears_one};

use super::super::answer::is_lawful;
use super::super::command::{RADIO_ANSWER, SEND_FRAME, answer_of};
use super::super::control::Control;
use super::super::fault::Fault;
use super::super::stage::Stage;
use super::{ANSWER_PULSES, Inquiry, RADIO_PULSES};
use frames::frame::Frame;

// Whether both begin with the same radio address; what is sent by radio and what comes by radio begins with its six bytes.
// kept: (a) no `starts_with`: that data is taken apart into six named address bytes and the rest is a form that the project asks for.
fn same_address(received: &[u8], sent: &[u8]) -> bool
    ensures { result ≡ bytes_eq (take 6 received.now) (take 6 sent.now) }
{
    match (received, sent) {
        ([a, b, c, d, e, f, _data @ ..], [s, t, u, v, w, x, _more @ ..]) => {
            a == s && b == t && c == u && d == v && e == w && f == x
        }
        _ => received == sent,
    }
}

// kept: (d) CMD and data of a frame apart in clauses, here and elsewhere: the rules speak of them apart.
impl Inquiry {
    // The stage to which a frame brings the inquiry.
    pub(crate) fn hear(&mut self, frame: &Frame)
        ensures heard { self.new ≡ hears_one self.old (a_frame frame.now.cmd (frame_data frame.now)) }
    {
        match self.stage {
            Stage::Acknowledging { attempt, .. } => self.hear_control(attempt, frame),
            Stage::Answering { .. } => self.hear_answer(frame),
            Stage::Receiving { .. } => self.hear_radio(frame),
            Stage::Waiting | Stage::Due { .. } | Stage::Ended(_) => {}
        }
    }

    // Control frames matter in an acknowledgement period, once a copy was put.
    fn hear_control(&mut self, attempt: u8, frame: &Frame)
        requires { self.old.copies ≤ attempt }
        ensures heard { self.new ≡ at_stage self.old (in_acknowledgement self.old frame.now.cmd (frame_data frame.now) self.old.stage attempt) }
    {
        match Control::read(frame) {
            _ if self.copies == 0 => {}
            Some(Control::Ack) => {
                self.stage = Stage::Answering {
                    left: ANSWER_PULSES,
                };
            }
            Some(Control::Nak) => self.fail(attempt),
            Some(Control::Error) => self.stage = Stage::Ended(Err(Fault::ErrorReply)),
            None => {}
        }
    }

    // Whether a frame is an answer to the inquiry's command, with lawful data.
    fn awaits(&self, frame: &Frame) -> bool
        ensures awaited { result ≡ awaits self.now frame.now.cmd (frame_data frame.now) }
    {
        is_lawful(frame) && answer_of(self.frame.cmd()) == Some(frame.cmd())
    }

    // The awaited answer ends the inquiry; what is sent by radio is answered by radio, once the card has sent it.
    fn hear_answer(&mut self, frame: &Frame)
        ensures heard { self.new ≡ at_stage self.old (in_answer self.old frame.now.cmd (frame_data frame.now) self.old.stage) }
    {
        if self.awaits(frame) {
            let by_radio = self.frame.cmd() == SEND_FRAME;
            self.stage = if by_radio && frame.data().first() == Some(&0) {
                Stage::Receiving { left: RADIO_PULSES }
            } else {
                Stage::Ended(Ok(*frame))
            };
        }
    }

    // Only an answer from the address sent ends the inquiry.
    fn hear_radio(&mut self, frame: &Frame)
        ensures heard { self.new ≡ at_stage self.old (in_radio self.old frame.now.cmd (frame_data frame.now) self.old.stage) }
    {
        if frame.cmd() == RADIO_ANSWER
            && is_lawful(frame)
            && same_address(frame.data(), self.frame.data())
        {
            self.stage = Stage::Ended(Ok(*frame));
        }
    }
}
