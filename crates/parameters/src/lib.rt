// The ten parameters of a card, and stores that hold their values.
#![tactic(auto)]

pub mod image;
pub mod made;
pub mod noted;
pub mod parameter;
pub mod refusal;
pub mod route;
pub mod store;
pub mod table;
pub mod value;
