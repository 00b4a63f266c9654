//! Why a connection isn't passed on any more.

use std::alloc::AllocError;
use std::io;
use thiserror::Error;

/// Why a connection isn't passed on any more. The text of each follows the number of the connection.
#[derive(Debug, Drop, Error)]
pub(crate) enum Fault {
    /// Its file was not made.
    #[error("cannot make its file: {0}")]
    Create(io::Error),
    /// The filter was not reached.
    #[error("cannot connect: {0}")]
    Connect(io::Error),
    /// What was read was not written to its file.
    #[error("cannot write its file: {0}")]
    Write(io::Error),
    /// The mail server was lost.
    #[error("mail server lost: {0}")]
    MailServer(io::Error),
    /// The filter was lost.
    #[error("filter lost: {0}")]
    Filter(io::Error),
    /// The system doesn't say when its sockets are ready.
    #[error("cannot wait for sockets")]
    Watch,
    /// Memory was refused.
    #[error("out of memory")]
    NoMemory,
}

impl From<AllocError> for Fault {
    fn from(_error: AllocError) -> Self {
        Fault::NoMemory
    }
}
