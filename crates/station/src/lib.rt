// The station's end of a serial cable: its rules, what they promise over every run, and the code of its calls, none of which is public yet.
#![tactic(auto)]

mod answer;
mod command;
mod control;
pub mod fault;
mod inquiry;
mod intake;
mod outcome;
mod places;
pub mod promises;
mod putting;
pub mod refusal;
mod reply;
pub mod samples;
mod slip;
mod stage;
mod station;
