// The four steps of a pulse.
ghost use Rattle.std.specs.Prelude.{◌≡◌, IfOk};
ghost use Rattle.frames.specs.Reading.{thing};
ghost use Rattle.station.specs.Stations.{Pulsed, fresh};
ghost use Rattle.station.specs.Moving.{Moves};
ghost use Rattle.station.specs.Working.{Handled, Heard};

use super::super::intake::take_waiting;
use super::super::places::Places;
use super::super::reply::reply;
use super::Station;
use frames::finding::Finding;
use frames::reader::Reader;
use lines::line::Line;
use std::alloc::{AllocError, Global};

impl Station {
    // A station with this mark, whose first inquiry gets this number.
    pub(crate) fn new(heap: Global, mark: u32, first: u32) -> Result<Station, AllocError>
        ensures fresh { IfOk result (λ s. s ≡ fresh mark first) }
    {
        let places = Places::new(heap)?;
        Ok(Station {
            mark,
            next: Some(first),
            places,
            reader: Reader::new(),
        })
    }

    // Replies to what was found, and lets the inquiry under way hear it.
    fn handle<L: Line>(&mut self, finding: &Finding, line: &mut L)
        ensures handled { Moves L.Line line.old line.new (Handled (thing finding.now) self.old self.new) }
    {
        reply(finding, line);
        if let Finding::Frame(frame) = finding {
            self.places.hear(frame);
        }
    }

    // Step 1: takes what waits, and handles what is found as it is found; in a silence the reader forgets what it holds.
    fn read<L: Line>(&mut self, line: &mut L)
        ensures heard { Moves L.Line line.old line.new (Heard self.old self.new) }
    {
        let taken = take_waiting(line);
        if taken.is_empty() {
            self.reader.forget();
            return;
        }
        let mut unread = taken.as_slice();
        while !unread.is_empty() {
            let (finding, used) = self.reader.read(unread);
            unread = &unread[used..];
            if let Some(finding) = &finding {
                self.handle(finding, line);
            }
        }
    }

    // One pulse, on any line.
    pub(crate) fn pulse<L: Line>(&mut self, line: &mut L)
        ensures step { Moves L.Line line.old line.new (λ was now. Pulsed self.old was self.new now) }
    {
        self.read(line);
        self.places.tick();
        self.places.begin();
        self.places.attempt(line);
    }
}
