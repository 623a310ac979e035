// The places of a station: its inquiries in the order lodged, eight at most.
use super::inquiry::Inquiry;
use std::marker::Model;

// How many inquiries a station holds at most.
const MOST_PLACES: usize = 8;

mod changes;
mod holding;

#[derive(Drop)]
pub(crate) struct Places {
    // memory for eight is there from the making, so nothing allocates later
    inquiries: Vec<Inquiry>,
}

impl Model for Places {
    ghost use Rattle.std.specs.Prelude.{List, ◌≤◌, vec_items, vec_len, vec_capacity};
    ghost use Rattle.station.specs.Inquiries.{Inquiry as InquiryByRule};
    ghost use Rattle.station.specs.Stations.{most_places};

    ghost Value = { List InquiryByRule };

    ghost view = { λ p. vec_items p.inquiries };

    ghost invariant = { λ p. (vec_len p.inquiries ≤ most_places) × (most_places ≤ vec_capacity p.inquiries) };
}
