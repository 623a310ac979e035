// How each command is written, and what it does.
use super::mistake::Mistake;

#[derive(Clone, Copy)]
pub struct Form {
    // its name, and the words behind it
    pub words: &'static str,
    pub does: &'static str,
}

pub static ABOUT_LINES: [Form; 14] = [
    Form {
        words: "wire IN OUT",
        does: "makes a wire with rings of IN and OUT bytes",
    },
    Form {
        words: "tape [HEX]",
        does: "makes a tape with these bytes to read",
    },
    Form {
        words: "box",
        does: "puts a fault box around the line, at most 3",
    },
    Form {
        words: "script [POS:MASK ..]",
        does: "loads a script into the outermost box",
    },
    Form {
        words: "take [N]",
        does: "takes all waiting bytes, or up to N",
    },
    Form {
        words: "put [HEX]",
        does: "puts bytes",
    },
    Form {
        words: "space",
        does: "asks for the space",
    },
    Form {
        words: "bring [HEX]",
        does: "brings bytes at the far end of a wire",
    },
    Form {
        words: "carry [N]",
        does: "carries all outgoing bytes of a wire off, or up to N",
    },
    Form {
        words: "sent",
        does: "shows what was put on a tape",
    },
    Form {
        words: "read [N]",
        does: "takes as take does, and shows what a reader of frames finds",
    },
    Form {
        words: "forget",
        does: "has that reader forget what it holds",
    },
    Form {
        words: "write CMD [HEX]",
        does: "writes a frame",
    },
    Form {
        words: "write-in N CMD [HEX]",
        does: "writes a frame into N bytes of memory",
    },
];

pub static ABOUT_CARDS: [Form; 14] = [
    Form {
        words: "table",
        does: "makes a table store",
    },
    Form {
        words: "image [HEX]",
        does: "opens an image as a store",
    },
    Form {
        words: "store [HEX]",
        does: "makes a store over any bytes",
    },
    Form {
        words: "length PARAM",
        does: "asks for the length of a value",
    },
    Form {
        words: "value PARAM",
        does: "asks for a value",
    },
    Form {
        words: "byte PARAM N",
        does: "asks for the byte at place N of a value, from 0",
    },
    Form {
        words: "set PARAM [HEX]",
        does: "writes a value",
    },
    Form {
        words: "bytes",
        does: "shows the bytes of an image",
    },
    Form {
        words: "board 25|500|915",
        does: "asks what a kind of board fixes",
    },
    Form {
        words: "admits 25|500|915 MODE",
        does: "asks whether a kind of board admits a mode",
    },
    Form {
        words: "settings 25|500|915",
        does: "makes settings for a kind of board",
    },
    Form {
        words: "mode [MODE]",
        does: "sets the mode, and tells it",
    },
    Form {
        words: "channel [CHANNEL]",
        does: "sets the channel, and tells it",
    },
    Form {
        words: "power [POWER]",
        does: "sets the power, and tells it",
    },
];

// What is wrong with words that say no command.
pub fn no_command(name: &str) -> Mistake<'_> {
    match form_of(name) {
        Some(form) => Mistake::Form(form),
        None => Mistake::Unknown(name),
    }
}

// How the command of this name is written.
fn form_of(name: &str) -> Option<&'static str> {
    ABOUT_LINES
        .iter()
        .chain(ABOUT_CARDS.iter())
        .map(|form| form.words)
        .find(|words| words.split_whitespace().next() == Some(name))
}
