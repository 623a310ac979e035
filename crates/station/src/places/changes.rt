// Looking an inquiry up, and changing the one that is found.
ghost use Rattle.std.specs.Prelude.{◌≡◌, Bool, [], IfOk};
ghost use Rattle.std.specs.Fn.{FnReturnsAt};
ghost use Rattle.std.specs.Option.{is_some, option_map};
ghost use Rattle.std.specs.Borrow.{sem};
ghost use Rattle.station.specs.Lending.{LendsFirst};
ghost use Rattle.frames.specs.Finding.{frame as a_frame};
ghost use Rattle.frames.specs.Reading.{frame_data};
ghost use Rattle.station.specs.Stations.{begins, change, ends_periods, first};
ghost use Rattle.station.specs.Steps.{hears_one};
ghost use Rattle.station.specs.Inquiries.{Stage, under_way};
ghost use Rattle.station.specs.Moving.{Moves};
ghost use Rattle.station.specs.Tables.{Tests, Attempts};

use super::super::inquiry::Inquiry;
use super::{MOST_PLACES, Places};
use frames::frame::Frame;
use lines::line::Line;
use std::alloc::{AllocError, Global};

impl Places {
    // Eight free places.
    pub(crate) fn new(heap: Global) -> Result<Places, AllocError>
        ensures free { IfOk result (λ p. p ≡ []) }
    {
        let inquiries = Vec::with_capacity(heap, MOST_PLACES)?;
        Ok(Places { inquiries })
    }

    // The first inquiry that is as asked, lent to be changed.
    fn first_mut<F: Fn(&Inquiry) -> bool>(&mut self, is_so: F) -> Option<&mut Inquiry>
        requires callable { F.IsAlwaysCallable is_so }
        ensures* lent { sem 𝓛 (LendsFirst (FnReturnsAt F.Fn is_so) self.entry result) }
        ensures held { (test : Stage → Bool) → Tests (FnReturnsAt F.Fn is_so) test → first test self.old ≡ option_map (λ r. r.now) result }
    {
        // kept: (c) tried: `iter_mut().find(..)`, with no place on the way; the goal `returns` then asks for `⊥`, since of what an adapter of `iter_mut` lends nothing is known afterwards.
        let place = self.inquiries.iter().position(&is_so)?;
        self.inquiries.get_mut(place)
    }

    // Whether an inquiry is under way.
    fn is_busy(&self) -> bool
        ensures busy { result ≡ is_some (first under_way self.now) }
    {
        self.inquiries.iter().any(Inquiry::is_under_way)
    }

    // The inquiry under way hears a frame.
    pub(crate) fn hear(&mut self, frame: &Frame)
        ensures heard { self.new ≡ change under_way (λ q. hears_one q (a_frame frame.now.cmd (frame_data frame.now))) self.old }
    {
        if let Some(inquiry) = self.first_mut(Inquiry::is_under_way) {
            inquiry.hear(frame);
        }
    }

    // A period that ends with this pulse ends.
    pub(crate) fn tick(&mut self)
        ensures ticked { self.new ≡ ends_periods self.old }
    {
        if let Some(inquiry) = self.first_mut(Inquiry::is_under_way) {
            inquiry.tick();
        }
    }

    // If no inquiry is under way, the oldest waiting one begins.
    pub(crate) fn begin(&mut self)
        ensures begun { self.new ≡ begins self.old }
    {
        if self.is_busy() {
            return;
        }
        if let Some(inquiry) = self.first_mut(Inquiry::is_waiting) {
            inquiry.begin();
        }
    }

    // A due attempt puts its frame if the line has space, else it is spent unsent.
    pub(crate) fn attempt<L: Line>(&mut self, line: &mut L)
        ensures attempted { Moves L.Line line.old line.new (Attempts self.old self.new) }
    {
        if let Some(inquiry) = self.first_mut(Inquiry::is_due) {
            inquiry.attempt(line);
        }
    }
}
