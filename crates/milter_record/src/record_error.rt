//! Why recording ended.

use std::alloc::AllocError;
use std::io::{self, ErrorKind};
use thiserror::Error;

/// Why recording ended.
#[derive(Debug, Drop, Error)]
pub enum RecordError {
    /// The system refused to wait for sockets.
    #[error("cannot wait for sockets")]
    Wait,
    /// Memory was refused.
    #[error("out of memory")]
    NoMemory,
}

impl From<AllocError> for RecordError {
    fn from(_error: AllocError) -> Self {
        RecordError::NoMemory
    }
}

impl From<io::Error> for RecordError {
    fn from(error: io::Error) -> Self {
        match error.kind() {
            ErrorKind::OutOfMemory => RecordError::NoMemory,
            _ => RecordError::Wait,
        }
    }
}
