// Why the program ends without its work done.
use std::alloc::AllocError;
use std::io;
use thiserror::Error;

#[derive(Debug, Drop, Error)]
pub enum Failure {
    #[error("unknown argument {0}; bench --help says how to use it")]
    UnknownArgument(String),
    #[error("cannot read the script: {0}")]
    Read(io::Error),
    #[error("cannot write: {0}")]
    Write(io::Error),
    #[error("out of memory")]
    Memory(#[from] AllocError),
}
