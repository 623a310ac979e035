// What is made, and the commands that are said to it until something else is made.
use super::card_sessions::{on_image, on_settings, on_store, on_table};
use super::command::Maker;
use super::failure::Failure;
use super::line_sessions::{on_tape, on_wire};
use super::stand::Stand;

// Makes what a maker says and plays on it; what is to be made next.
pub fn session(maker: Maker, stand: &mut Stand<'_>) -> Result<Option<Maker>, Failure> {
    match maker {
        Maker::Wire { incoming, outgoing } => on_wire(incoming, outgoing, stand),
        Maker::Tape(capture) => on_tape(capture.as_slice(), stand),
        Maker::Table => on_table(stand),
        Maker::Image(mut bytes) => on_image(&mut bytes, stand),
        Maker::Store(mut bytes) => on_store(&mut bytes, stand),
        Maker::Settings(kind) => on_settings(kind, stand),
    }
}
