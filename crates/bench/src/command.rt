// What a line of a script can say.
use super::kind::Kind;
use lines::script::Entry;

#[derive(Drop)]
pub enum Command {
    Make(Maker),
    Box,
    Line(LineCall),
    Store(StoreCall),
    Settings(SettingsCall),
    Free(FreeCall),
}

// What makes something to speak to, in the place of what there was.
#[derive(Drop)]
pub enum Maker {
    Wire { incoming: usize, outgoing: usize },
    Tape(Vec<u8>),
    Table,
    // an image that is opened
    Image(Vec<u8>),
    // a store that is made over any bytes
    Store(Vec<u8>),
    Settings(Kind),
}

// What is said to a line. A count is the most bytes to go for; without one, all that there are.
#[derive(Drop)]
pub enum LineCall {
    Script(Vec<Entry>),
    Take(Option<usize>),
    Put(Vec<u8>),
    Space,
    Read(Option<usize>),
    Forget,
    End(EndCall),
}

// What is said to one end of a line, and so to lines of one kind alone.
#[derive(Drop)]
pub enum EndCall {
    Bring(Vec<u8>),
    Carry(Option<usize>),
    Sent,
}

// What is said to a store of parameters, which go by their numbers.
#[derive(Drop)]
pub enum StoreCall {
    Length(u8),
    Value(u8),
    Byte { number: u8, place: usize },
    Set { number: u8, value: Vec<u8> },
    Bytes,
}

// What is said to settings: to change one, or without a value to tell it.
#[derive(Clone, Copy)]
pub enum SettingsCall {
    Mode(Option<u16>),
    Channel(Option<u8>),
    Power(Option<u8>),
}

// What is said to nothing that was made before.
#[derive(Drop)]
pub enum FreeCall {
    Write {
        memory: usize,
        cmd: u8,
        data: Vec<u8>,
    },
    Board(Kind),
    Admits(Kind, u16),
}
