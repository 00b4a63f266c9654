//! Why a service ended.

use std::alloc::AllocError;
use std::io;
use thiserror::Error;

/// Why a service ended.
#[derive(Debug, Drop, Error)]
pub enum ServiceError {
    /// The system refused what the service stands on: to wait for sockets, to watch a listener, or to read the clock.
    #[error("cannot wait for sockets")]
    Wait,
    /// The line of a connection was not written.
    #[error("write fault")]
    Write,
    /// Memory was refused for the service itself.
    #[error("out of memory")]
    NoMemory,
}

impl From<AllocError> for ServiceError {
    fn from(_error: AllocError) -> Self {
        ServiceError::NoMemory
    }
}

impl From<io::Error> for ServiceError {
    fn from(error: io::Error) -> Self {
        match error.kind() {
            io::ErrorKind::OutOfMemory => ServiceError::NoMemory,
            _ => ServiceError::Wait,
        }
    }
}
