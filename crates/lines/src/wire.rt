// A wire: two rings in memory that its maker hands over, with a line at one end and its far end at the other.
ghost use Rattle.std.specs.Prelude.{◌≡◌, ℕ, [], length};
ghost use Rattle.lines.specs.Meaning.{Taken, Put};
ghost use Rattle.lines.specs.Runs.{Step, Run, GoesOn, made, takes, puts};
ghost use Rattle.lines.specs.Wires.{wired, near_end, near_end_within, fresh};

use crate::far_end::FarEnd;
use crate::line::Line;
use crate::refusal::Refusal;
use crate::ring::Ring;

// The bytes on the way in and the bytes on the way out.
// kept: (d) no model: `meaning` of the trait is its view, and a model would say the same once more.
#[derive(Drop)]
pub struct Wire<'a> {
    incoming: Ring<'a>,
    outgoing: Ring<'a>,
}

impl<'a> Wire<'a> {
    // An empty wire over the two stretches of memory.
    pub fn new(incoming: &'a mut [u8], outgoing: &'a mut [u8]) -> Self
        ensures empty { wired result ≡ fresh (length incoming.old) (length outgoing.old) }
        ensures law { Run (made (length incoming.old) (length outgoing.old)) (wired result) }
    {
        Wire {
            incoming: Ring::new(incoming),
            outgoing: Ring::new(outgoing),
        }
    }
}

impl<'a> Line for Wire<'a> {
    ghost meaning = { near_end };

    ghost within = { near_end_within };

    ghost Fixture = { ℕ };

    ghost fixed = { λ w. (wired w).intake };

    fn take(&mut self) -> Option<u8>
        ensures taken { Taken (near_end self.old) result (near_end self.new) }
        ensures fixed { (wired self.new).intake ≡ (wired self.old).intake }
        ensures step { Step (wired self.old) (takes result) (wired self.new) }
        ensures law { GoesOn (wired self.old) (takes result) (wired self.new) }
    {
        self.incoming.pop()
    }

    fn put(&mut self, bytes: &[u8]) -> Result<(), Refusal>
        ensures put { Put (near_end self.old) bytes.now result (near_end self.new) }
        ensures fixed { (wired self.new).intake ≡ (wired self.old).intake }
        ensures step { Step (wired self.old) (puts bytes.now result) (wired self.new) }
        ensures law { GoesOn (wired self.old) (puts bytes.now result) (wired self.new) }
    {
        self.outgoing.append(bytes)
    }

    fn space(&self) -> usize {
        self.outgoing.room()
    }
}

impl<'a> FarEnd for Wire<'a> {
    ghost wire = { wired };

    ghost boxes = { λ _. [] };

    fn bring(&mut self, byte: u8) -> Result<(), Refusal> {
        self.incoming.push(byte)
    }

    fn carry(&mut self) -> Option<u8> {
        self.outgoing.pop()
    }
}
