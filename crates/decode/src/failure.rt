// Why the program ends without its work done.
use super::arguments::BadUse;
use super::hex::HexFault;
use std::alloc::AllocError;
use std::io;
use thiserror::Error;

#[derive(Debug, Drop, Error)]
pub enum Failure {
    #[error(transparent)]
    Use(#[from] BadUse),
    // the file could not be opened
    #[error("cannot open {0}: {1}")]
    Open(String, io::Error),
    #[error("cannot read the capture: {0}")]
    Read(io::Error),
    #[error("cannot write: {0}")]
    Write(io::Error),
    #[error(transparent)]
    Hex(#[from] HexFault),
    #[error("out of memory")]
    Memory(#[from(alloc)] AllocError),
}
