//! Why a file isn't read as a capture.

ghost use Rattle.milter_capture.specs.FaultText.{capture_fault_text};
ghost use Rattle.milter_capture.specs.declared.fault.CaptureFault.TheVariants as faults;
ghost use Rattle.std.specs.Prelude.{◌≡◌};

use milter_fields::RefusedMemory;
use std::error::Error;
use std::fmt;

/// Why a file isn't read as a capture. Its records, which are the blocks of a pcapng file, are numbered from 1. The
/// text of each is its fault line, without the LF.
#[derive(Clone, Copy, Debug, PartialEq, Eq)]
pub enum CaptureFault {
    /// It doesn't begin as a capture.
    NotCapture,
    /// It ends within this record.
    Truncated(u64),
    /// This record has no form of a record, or is of an interface that isn't described.
    BadRecord(u64),
    /// The frame of this record is of a link type that isn't known.
    LinkType {
        /// The number of the record.
        number: u64,
        /// The number of the link type.
        link: u32,
    },
    /// Memory was refused.
    NoMemory,
}

impl fmt::Display for CaptureFault {
    ghost output = { capture_fault_text };

    fn fmt<W: fmt::Write>(&self, f: &mut fmt::Formatter<W>) -> fmt::Result {
        match *self {
            CaptureFault::NotCapture => f.write_str("not a capture"),
            CaptureFault::Truncated(number) => write!(f, "record {number}: truncated"),
            CaptureFault::BadRecord(number) => write!(f, "record {number}: bad record"),
            CaptureFault::LinkType { number, link } => {
                write!(f, "record {number}: unknown link type {link}")
            }
            CaptureFault::NoMemory => f.write_str("out of memory"),
        }
    }
}

impl Error for CaptureFault {}

impl<E: RefusedMemory> From<E> for CaptureFault {
    ghost from_gives = { λ _ e. e ≡ faults.NoMemory };

    fn from(_error: E) -> CaptureFault {
        CaptureFault::NoMemory
    }
}
