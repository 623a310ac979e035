// Lines that are made, and the commands that are said to them until something else is made.
use super::command::Maker;
use super::failure::Failure;
use super::line_ends::{TapeEnd, WireEnd};
use super::rig::Rig;
use super::stand::Stand;
use super::subject::{Boxable, play, play_to_box};
use lines::tape::Tape;
use lines::wire::Wire;
use std::ops::ControlFlow;

pub fn on_wire(
    incoming: usize,
    outgoing: usize,
    stand: &mut Stand<'_>,
) -> Result<Option<Maker>, Failure> {
    let heap = stand.heap();
    let mut ring_in = vec![in heap; 0u8; incoming]?;
    let mut ring_out = vec![in heap; 0u8; outgoing]?;
    stand.say(format_args!("made wire {incoming} {outgoing}"))?;
    let wire = Wire::new(&mut ring_in, &mut ring_out);
    on_line(Rig::new(wire, WireEnd), stand)
}

pub fn on_tape(capture: &[u8], stand: &mut Stand<'_>) -> Result<Option<Maker>, Failure> {
    let count = capture.len();
    stand.say(format_args!("made tape {count}"))?;
    on_line(Rig::new(Tape::new(capture), TapeEnd), stand)
}

// Plays on a line, and with each box that is put around it, up to the third. A line with another number of boxes
// around it is of another type.
// kept: (b) a function for each box, and no `?` from one to the next: that would hand on every end as the answer for a line in three boxes, in memory for such a line, with which each line that is made took a third more time. One function that calls itself would need `type Boxed: Boxable`, a bound that recurs and is refused.
// The hint has the line made where it is played on.
#[inline(always)]
fn on_line<S>(bare: S, stand: &mut Stand<'_>) -> Result<Option<Maker>, Failure>
where
    S: Boxable,
    S::Boxed: Boxable,
    <S::Boxed as Boxable>::Boxed: Boxable,
{
    match play_to_box(bare, 1, stand) {
        ControlFlow::Continue(once) => on_boxed_once(once, stand),
        ControlFlow::Break(end) => end,
    }
}

fn on_boxed_once<S>(once: S, stand: &mut Stand<'_>) -> Result<Option<Maker>, Failure>
where
    S: Boxable,
    S::Boxed: Boxable,
{
    match play_to_box(once, 2, stand) {
        ControlFlow::Continue(twice) => on_boxed_twice(twice, stand),
        ControlFlow::Break(end) => end,
    }
}

fn on_boxed_twice<S: Boxable>(twice: S, stand: &mut Stand<'_>) -> Result<Option<Maker>, Failure> {
    match play_to_box(twice, 3, stand) {
        ControlFlow::Continue(mut thrice) => play(&mut thrice, stand),
        ControlFlow::Break(end) => end,
    }
}
