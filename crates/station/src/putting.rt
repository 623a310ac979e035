// Putting a frame on a line.
ghost use Rattle.std.specs.Prelude.{◌≡◌, ◌&&◌, length, nat_le};
ghost use Rattle.frames.specs.Frame.{frame_bytes};
ghost use Rattle.station.specs.Stations.{has_space};
ghost use Rattle.station.specs.Moving.{Moves};
ghost use Rattle.station.specs.Putting.{writable, PutsIf};

use frames::frame::LONGEST;
use frames::writing::write;
use lines::line::Line;

// Puts a frame whole if it can be written and the line has space for it, and not at all otherwise; whether it did.
// kept: (d) CMD and data and no `&Frame`, since a reply is a control frame's, and `Frame::of` would copy 250 bytes and answer a Result that cannot be refused here.
pub(crate) fn put_frame<L: Line>(line: &mut L, cmd: u8, data: &[u8]) -> bool
    ensures went { result ≡ (nat_le (length «data».now) 250 && has_space (L.Line.meaning line.old).capacity (L.Line.meaning line.old).outgoing (frame_bytes cmd «data».now)) }
    ensures put { Moves L.Line line.old line.new (PutsIf (writable cmd «data».now)) }
{
    let mut memory = [0u8; LONGEST];
    let Ok(count) = write(&mut memory, cmd, data) else {
        return false;
    };
    line.put(&memory[..count]).is_ok()
}
