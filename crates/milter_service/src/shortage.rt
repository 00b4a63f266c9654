//! What a system lacks for connections that come.

use std::io::{Error, ErrorKind};

/// The numbers of the system's errors of a process or a system that has no descriptor left. Source: Linux,
/// include/uapi/asm-generic/errno-base.h (EMFILE, ENFILE).
const NO_DESCRIPTOR: [i32; 2] = [24, 23];

/// What a system lacks for connections that come.
#[derive(Clone, Copy, Debug, PartialEq, Eq)]
pub enum Shortage {
    /// Descriptors of the process, or of the system.
    Descriptors,
    /// Memory.
    Memory,
    /// Something else.
    Other,
}

impl Shortage {
    /// What is lacking where the system gives this error in place of a connection. Doesn't allocate.
    pub(crate) fn of(error: &Error) -> Self {
        match error.raw_os_error() {
            Some(number) if NO_DESCRIPTOR.contains(&number) => Shortage::Descriptors,
            _ if error.kind() == ErrorKind::OutOfMemory => Shortage::Memory,
            _ => Shortage::Other,
        }
    }

    /// Its word. Doesn't allocate.
    pub fn name(self) -> &'static [u8] {
        match self {
            Shortage::Descriptors => b"descriptors",
            Shortage::Memory => b"memory",
            Shortage::Other => b"something else",
        }
    }
}
