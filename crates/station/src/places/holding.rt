// Taking a place, and giving it back.
ghost use Rattle.std.specs.Prelude.{◌≡◌, ◌<◌, [], ◌∷◌, ◌++◌, length, nat_le};
ghost use Rattle.std.specs.Option.{option_map};
ghost use Rattle.station.specs.Stations.{most_places, held_under, without};

use super::super::inquiry::Inquiry;
use super::{MOST_PLACES, Places};
use frames::numbered::find;

impl Places {
    // Whether all eight places are taken.
    pub(crate) fn are_taken(&self) -> bool
        ensures taken { result ≡ nat_le most_places (length self.now) }
    {
        self.inquiries.len() >= MOST_PLACES
    }

    // One inquiry more, behind the others.
    pub(crate) fn add(&mut self, inquiry: Inquiry)
        requires { length self.old < most_places }
        ensures added { self.new ≡ self.old ++ (inquiry ∷ []) }
    {
        self.inquiries.push_reserved(inquiry);
    }

    // The first inquiry of a number.
    pub(crate) fn held(&self, number: u32) -> Option<&Inquiry>
        ensures held { option_map (λ q. q.now) result ≡ held_under number self.now }
    {
        let place = find(self.inquiries.as_slice(), number)?;
        Some(&self.inquiries[place])
    }

    // The first inquiry of a number is gone, if there is one.
    pub(crate) fn free(&mut self, number: u32)
        ensures freed { self.new ≡ without number self.old }
    {
        if let Some(place) = find(self.inquiries.as_slice(), number) {
            let _ = self.inquiries.remove(place);
        }
    }
}
