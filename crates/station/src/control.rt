// The three frames by which the two ends answer for each other's frames.
ghost use Rattle.std.specs.Prelude.{◌≡◌};
ghost use Rattle.frames.specs.Reading.{frame_data};
ghost use Rattle.station.specs.Exchange.{control_cmd};
ghost use Rattle.station.specs.Controls.{control_in, control_cmd_of, control_data};

use frames::frame::Frame;

// A control frame by name; its number is its CMD.
#[derive(Clone, Copy)]
pub(crate) enum Control {
    // the frame has come
    Ack = 0x06,
    // not understood, or damaged
    Nak = 0x15,
    // no such command here
    Error = 0x00,
}

const ACK: u8 = Control::Ack as u8;

const NAK: u8 = Control::Nak as u8;

const ERROR: u8 = Control::Error as u8;

impl Control {
    // Whether a CMD is that of a control frame, whatever the data.
    pub(crate) fn is_cmd(cmd: u8) -> bool
        ensures { result ≡ control_cmd cmd }
    {
        matches!(cmd, ACK | NAK | ERROR)
    }

    // The control frame that this frame is, if it is one.
    pub(crate) fn read(frame: &Frame) -> Option<Control>
        ensures control { result ≡ control_in frame.now.cmd (frame_data frame.now) }
    {
        match (frame.cmd(), frame.data()) {
            (ACK, []) => Some(Control::Ack),
            (NAK, []) => Some(Control::Nak),
            (ERROR, [0x01]) => Some(Control::Error),
            _ => None,
        }
    }

    pub(crate) fn cmd(self) -> u8
        ensures cmd { result ≡ control_cmd_of self }
    {
        self as u8
    }

    pub(crate) fn data(self) -> &'static [u8]
        ensures data { result.now ≡ control_data self }
    {
        match self {
            Control::Ack | Control::Nak => &[],
            Control::Error => &[0x01],
        }
    }
}
