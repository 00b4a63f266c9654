//! Why there was no load.

use std::alloc::AllocError;
use std::io::{self, ErrorKind};
use thiserror::Error;

/// Why there was no load.
#[derive(Debug, Drop, Error)]
pub enum LoadError {
    /// No connection was ever made; at the last try for this reason.
    #[error("cannot connect")]
    Connect(ErrorKind),
    /// The system refused to wait for sockets, or to read the clock.
    #[error("cannot wait for sockets")]
    Wait,
    /// Memory was refused.
    #[error("out of memory")]
    NoMemory,
}

impl From<AllocError> for LoadError {
    fn from(_error: AllocError) -> Self {
        LoadError::NoMemory
    }
}

impl From<io::Error> for LoadError {
    fn from(error: io::Error) -> Self {
        match error.kind() {
            ErrorKind::OutOfMemory => LoadError::NoMemory,
            _ => LoadError::Wait,
        }
    }
}
