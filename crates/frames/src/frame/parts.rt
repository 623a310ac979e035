// The parts of a frame.
ghost use Rattle.std.specs.Prelude.{◌≡◌, ◌≤◌, length, IfOk};
ghost use Rattle.frames.specs.Reading.{frame_data};
ghost use Rattle.frames.specs.Refusals.{cause as cause_of};
ghost use Rattle.frames.specs.Writing.{data_cause};

use super::super::refusal::Refusal;
use super::{Frame, MOST_DATA};

impl Frame {
    // The frame with this command and these data bytes.
    pub(crate) fn new(cmd: u8, data: &[u8]) -> Frame
        requires { length «data».now ≤ 250 }
        ensures cmd { result.cmd ≡ cmd }
        ensures bytes { frame_data result ≡ «data».now }
    {
        let count = data.len();
        let mut bytes = [0u8; MOST_DATA];
        bytes[0..count].copy_from_slice(data);
        Frame { cmd, count, bytes }
    }

    /// The frame with this command and these data bytes; more than a frame can carry are refused.
    pub fn of(cmd: u8, data: &[u8]) -> Result<Frame, Refusal>
        ensures refused { cause_of result ≡ data_cause (length «data».now) }
        ensures cmd { IfOk result (λ f. f.cmd ≡ cmd) }
        ensures bytes { IfOk result (λ f. frame_data f ≡ «data».now) }
    {
        if data.len() > MOST_DATA {
            return Err(Refusal::DataTooLong);
        }
        Ok(Frame::new(cmd, data))
    }

    pub fn cmd(&self) -> u8
        ensures { result ≡ self.now.cmd }
    {
        self.cmd
    }

    pub fn data(&self) -> &[u8]
        ensures bytes { result.now ≡ frame_data self.now }
        ensures few { length result.now ≤ 250 }
    {
        &self.bytes[0..self.count]
    }
}
