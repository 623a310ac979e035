// What a pulse takes from its line.
ghost use Rattle.std.specs.Prelude.{◌≡◌};
ghost use Rattle.station.specs.Stations.{taken};
ghost use Rattle.station.specs.Moving.{Moves};
ghost use Rattle.station.specs.Intakes.{Drained};

use arrayvec::ArrayVec;
use lines::line::Line;

// How many bytes a pulse takes at most.
const MOST_TAKEN: usize = 300;

// Takes what waits on the line, as far as a pulse takes it.
pub(crate) fn take_waiting<L: Line>(line: &mut L) -> ArrayVec<u8, MOST_TAKEN>
    ensures bytes { result.items ≡ taken (L.Line.meaning line.old) }
    ensures drained { Moves L.Line line.old line.new Drained }
{
    // kept: (c) a loop: with `extend` over `iter::from_fn` and `take` the goals `returns-clause-bytes` and `returns-clause-drained` stay open.
    let mut bytes = ArrayVec::new();
    while !bytes.is_full() {
        let Some(byte) = line.take() else {
            return bytes;
        };
        bytes.push(byte);
    }
    bytes
}
