// Why a line of the script is not carried out.
use std::alloc::AllocError;
use thiserror::Error;

#[derive(Clone, Copy, Debug, Error)]
pub enum Mistake<'a> {
    #[error("this is not text")]
    NoText,
    // a name that no command has
    #[error("unknown command \"{0}\"")]
    Unknown(&'a str),
    // a word of the line, and what it should be
    #[error("\"{0}\" is {1}")]
    Word(&'a str, Wanted),
    // a known command with other words behind it than this
    #[error("the command is: {0}")]
    Form(&'a str),
    #[error("make a line, a store or settings first")]
    NothingMade,
    // what is there does not know the command
    #[error("this command is not for {0}")]
    NotFor(&'a str),
    #[error("there is no box to load")]
    NoBox,
    #[error("a line has at most 3 boxes")]
    BoxesUsedUp,
    #[error("out of memory")]
    Memory(#[from] AllocError),
}

// What is said to a command, or why it is not carried out.
pub type Answer = Result<String, Mistake<'static>>;

// What a word should be, as it is said of one that is something else.
#[derive(Clone, Copy, Debug, Error)]
pub enum Wanted {
    #[error("no number from 0 to 65535")]
    Number,
    #[error("not two hexadecimal digits for each byte")]
    Bytes,
    #[error("not two hexadecimal digits")]
    Byte,
    #[error("not a position, a colon and a mask")]
    Entry,
    #[error("not four hexadecimal digits")]
    Mode,
    #[error("no kind of board: 25, 500 or 915")]
    Kind,
}
