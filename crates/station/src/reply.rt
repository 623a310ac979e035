// The replies of a station to what it finds.
ghost use Rattle.std.specs.Prelude.{◌≡◌};
ghost use Rattle.frames.specs.Finding.{frame as a_frame};
ghost use Rattle.frames.specs.Reading.{thing, frame_data};
ghost use Rattle.station.specs.Controls.{frame_of};
ghost use Rattle.station.specs.Exchange.{reply as reply_by_rule};
ghost use Rattle.station.specs.Moving.{Moves};
ghost use Rattle.station.specs.Putting.{PutsIf};

use super::answer::{is_answer, is_lawful};
use super::control::Control;
use super::putting::put_frame;
use frames::finding::{Cause, Finding};
use frames::frame::Frame;
use lines::line::Line;

// The reply that a frame draws: none if it is a control frame, whatever its data.
fn reply_to(frame: &Frame) -> Option<Control>
    ensures reply { frame_of result ≡ reply_by_rule (a_frame frame.now.cmd (frame_data frame.now)) }
{
    match frame.cmd() {
        cmd if Control::is_cmd(cmd) => None,
        cmd if !is_answer(cmd) => Some(Control::Error),
        _ if is_lawful(frame) => Some(Control::Ack),
        _ => Some(Control::Nak),
    }
}

// The reply that a finding draws.
fn reply_for(finding: &Finding) -> Option<Control>
    ensures reply { frame_of result ≡ reply_by_rule (thing finding.now) }
{
    match finding {
        Finding::Frame(frame) => reply_to(frame),
        Finding::Dropped { cause, .. } => match cause {
            Cause::Length => None,
            Cause::End | Cause::Check => Some(Control::Nak),
        },
    }
}

// Puts the reply that a finding draws; where space is short it is lost.
pub(crate) fn reply<L: Line>(finding: &Finding, line: &mut L)
    ensures replied { Moves L.Line line.old line.new (PutsIf (reply_by_rule (thing finding.now))) }
{
    if let Some(control) = reply_for(finding) {
        let _ = put_frame(line, control.cmd(), control.data());
    }
}
