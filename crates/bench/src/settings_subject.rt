// Settings that answer commands, and questions about kinds of boards.
use super::command::{Command, SettingsCall};
use super::kind::WithBoard;
use super::mistake::{Answer, Mistake};
use super::subject::Subject;
use super::texts::{plain, shown, with_mode};
use boards::board::Board;
use boards::settings::{Settings, Unlawful};
use std::alloc::Global;

impl<B: Board> Subject for Settings<B> {
    fn answer(&mut self, heap: Global, command: &Command) -> Answer {
        let Command::Settings(call) = command else {
            return Err(Mistake::NotFor("settings"));
        };
        match changed(self, *call) {
            Ok(()) => told(heap, self, *call),
            Err(Unlawful) => plain(heap, "unlawful"),
        }
    }
}

// Changes the setting that a call gives a value for.
fn changed<B: Board>(settings: &mut Settings<B>, call: SettingsCall) -> Result<(), Unlawful> {
    match call {
        SettingsCall::Mode(Some(mode)) => settings.set_mode(mode),
        SettingsCall::Channel(Some(channel)) => settings.set_channel(channel),
        SettingsCall::Power(Some(power)) => settings.set_power(power),
        _ => Ok(()),
    }
}

// The setting that a call is about, as it is now.
fn told<B: Board>(heap: Global, settings: &Settings<B>, call: SettingsCall) -> Answer {
    match call {
        SettingsCall::Mode(_) => with_mode(heap, "mode", settings.mode()),
        SettingsCall::Channel(_) => shown(heap, "channel", &[settings.channel()]),
        SettingsCall::Power(_) => shown(heap, "power", &[settings.power()]),
    }
}

// Asks what is fixed about a board.
#[derive(Clone, Copy)]
pub struct Fixed {
    pub heap: Global,
}

impl WithBoard for Fixed {
    type Outcome = Answer;

    fn with<B: Board + Drop>(self, board: B) -> Answer {
        let mode = board.first_mode();
        let settable = if board.lets_power_be_set() {
            "settable"
        } else {
            "not settable"
        };
        Ok(format!(in self.heap; "default {mode:04X}, power {settable}")?)
    }
}

// Asks whether a board admits a mode.
#[derive(Clone, Copy)]
pub struct Admits {
    pub heap: Global,
    pub mode: u16,
}

impl WithBoard for Admits {
    type Outcome = Answer;

    fn with<B: Board + Drop>(self, board: B) -> Answer {
        let word = if board.admits(self.mode) {
            "admitted"
        } else {
            "not admitted"
        };
        with_mode(self.heap, word, self.mode)
    }
}
