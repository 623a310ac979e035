// The nine requests: how much data each carries, and which command answers it.
ghost use Rattle.std.specs.Prelude.{◌≡◌};
ghost use Rattle.std.specs.Option.{option_map};
ghost use Rattle.station.specs.Commands.{commands, row_of, request_cause, answers_some};
ghost use Rattle.station.specs.Refusals.{refusal_in};
ghost use Rattle.station.specs.Rows.{row_told};

use super::refusal::Refusal;
use frames::numbered::{Numbered, find};

// The CMD of a request that is sent on by radio.
pub(crate) const SEND_FRAME: u8 = 0x20;

// The CMD of an answer that came by radio.
pub(crate) const RADIO_ANSWER: u8 = 0x30;

// A request with the least and the most data bytes, and the CMD that answers it.
#[derive(Clone, Copy)]
pub(crate) struct Command {
    cmd: u8,
    least: usize,
    most: usize,
    answer: u8,
}

impl Numbered for Command {
    ghost carried = { λ row. row.cmd };

    fn number(&self) -> u32 {
        u32::from(self.cmd)
    }
}

static COMMANDS: [Command; 9] = [
    // send frame
    Command {
        cmd: SEND_FRAME,
        least: 6,
        most: 158,
        answer: 0x21,
    },
    // write parameter
    Command {
        cmd: 0x40,
        least: 2,
        most: 242,
        answer: 0x41,
    },
    // set power
    Command {
        cmd: 0x44,
        least: 1,
        most: 1,
        answer: 0x45,
    },
    // read parameter
    Command {
        cmd: 0x50,
        least: 1,
        most: 1,
        answer: 0x51,
    },
    // read power
    Command {
        cmd: 0x54,
        least: 0,
        most: 0,
        answer: 0x55,
    },
    // set channel
    Command {
        cmd: 0x60,
        least: 1,
        most: 1,
        answer: 0x61,
    },
    // read channel
    Command {
        cmd: 0x62,
        least: 0,
        most: 0,
        answer: 0x63,
    },
    // set mode
    Command {
        cmd: 0x64,
        least: 2,
        most: 2,
        answer: 0x65,
    },
    // read mode
    Command {
        cmd: 0x66,
        least: 0,
        most: 0,
        answer: 0x67,
    },
];

// The row of a request, or that the CMD is none.
fn row_of(cmd: u8) -> Option<Command>
    ensures row { row_told result ≡ row_of cmd commands }
{
    let place = find(&COMMANDS, u32::from(cmd))?;
    Some(COMMANDS[place])
}

// Whether the table admits a request with so many data bytes.
pub(crate) fn admit(cmd: u8, count: usize) -> Result<(), Refusal>
    ensures cause { refusal_in result ≡ request_cause cmd count }
{
    let row = row_of(cmd).ok_or(Refusal::UnknownCommand)?;
    if !(row.least..=row.most).contains(&count) {
        return Err(Refusal::DataLength);
    }
    Ok(())
}

// The CMD that answers a request, if the CMD is one.
pub(crate) fn answer_of(cmd: u8) -> Option<u8>
    ensures answer { result ≡ option_map (λ r. r.answer) (row_of cmd commands) }
{
    row_of(cmd).map(|row| row.answer)
}

// Whether a CMD answers some request.
pub(crate) fn answers_some(cmd: u8) -> bool
    ensures answers { result ≡ answers_some cmd commands }
{
    COMMANDS.iter().any(|row| row.answer == cmd)
}
