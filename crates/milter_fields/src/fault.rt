//! What can be wrong with packets and with memory.

ghost use Rattle.std.specs.Prelude.{◌≡◌};
ghost use Rattle.milter_fields.specs.declared.fault.WireFault.TheVariants as faults;
ghost use Rattle.milter_fields.specs.WireFault.{wire_fault_number};

use crate::code_name::CodeName;
use std::alloc::{AllocError, AllocFailed};
use thiserror::Error;

/// The memory that a call asked for was refused. The value that it was called on is then as it was before, unless the
/// call says otherwise.
#[derive(Clone, Copy, Debug, PartialEq, Eq, Error)]
#[error("out of memory")]
pub struct NoMemory;

/// An error that says that memory was refused, and nothing else.
pub trait RefusedMemory: Drop {}

impl RefusedMemory for NoMemory {}

impl RefusedMemory for AllocError {}

impl<T: Drop> RefusedMemory for AllocFailed<T> {}

impl From<AllocError> for NoMemory {
    fn from(_error: AllocError) -> NoMemory {
        NoMemory
    }
}

impl<T: Drop> From<AllocFailed<T>> for NoMemory {
    fn from(_error: AllocFailed<T>) -> NoMemory {
        NoMemory
    }
}

/// What is wrong with a packet, or with the end of a stream. Its text is that of a fault line of the tracer after
/// the direction.
#[derive(Clone, Copy, Debug, PartialEq, Eq, Error)]
pub enum WireFault {
    /// A length field states 0: a packet has at least its code.
    #[error("zero length")]
    ZeroLength,
    /// A length field states this length, which is above 65,536 bytes.
    #[error("length {0} too long")]
    TooLong(u32),
    /// No packet of the direction has this code.
    #[error("unknown code {}", CodeName(*.0))]
    UnknownCode(u8),
    /// The payload isn't in the layout of this code.
    #[error("malformed {}", CodeName(*.0))]
    Malformed(u8),
    /// The stream ended with this many bytes of a packet that isn't whole.
    #[error("truncated {0} bytes")]
    Truncated(usize),
    /// The memory that was asked for was refused.
    #[error("out of memory")]
    NoMemory,
}

impl WireFault {
    /// The fault's number, from 1 to 6 in the order of the variants.
    pub fn number(&self) -> u8
        ensures { result ≡ wire_fault_number self.now }
    {
        match self {
            WireFault::ZeroLength => 1,
            WireFault::TooLong(_) => 2,
            WireFault::UnknownCode(_) => 3,
            WireFault::Malformed(_) => 4,
            WireFault::Truncated(_) => 5,
            WireFault::NoMemory => 6,
        }
    }
}

impl<E: RefusedMemory> From<E> for WireFault {
    ghost from_gives = { λ _ e. e ≡ faults.NoMemory };

    fn from(_error: E) -> WireFault {
        WireFault::NoMemory
    }
}
