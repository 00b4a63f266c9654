//! How a trace can end before its input does.

ghost use Rattle.milter_trace.specs.declared.fault.TraceFault.TheVariants as faults;
ghost use Rattle.milter_trace.specs.declared.direction.Direction.TheVariants.{ToFilter, ToMta};
ghost use Rattle.milter_trace.specs.FaultText.{fault_text, truncated_line, truncated_lines};
ghost use Rattle.std.specs.Prelude.{◌≡◌, Some};

use crate::direction::Direction;
use milter_wire::{RefusedMemory, WireFault};
use std::error::Error;
use std::fmt;

/// Why a trace ended. After the first three, the text up to the fault was written; after the others, a prefix of
/// it. Lines are numbered from 1. The text of each is its fault line, without the LF; `Truncated` may have two lines.
#[derive(Clone, Copy, Debug, PartialEq, Eq)]
pub enum TraceFault {
    /// The line with this number is none of a trace.
    BadLine(u64),
    /// A packet that becomes whole in this line is at fault, or the length of one.
    Packet {
        /// The number of the line.
        line: u64,
        /// The direction of the packet.
        direction: Direction,
        /// The fault: of a length, or a malformed payload.
        fault: WireFault,
    },
    /// The input ended with so many bytes of packets that aren't whole, in one direction at least.
    Truncated {
        /// The bytes to the filter.
        to_filter: usize,
        /// The bytes to the mail server.
        to_mta: usize,
    },
    /// A read of the input failed.
    ReadFault,
    /// A write of the text failed, or took nothing.
    WriteFault,
    /// The input had not ended after 1,073,741,824 reads.
    TurnLimit,
    /// Memory was refused.
    NoMemory,
}

impl fmt::Display for TraceFault {
    ghost output = { fault_text };

    fn fmt<W: fmt::Write>(&self, f: &mut fmt::Formatter<W>) -> fmt::Result {
        match *self {
            TraceFault::BadLine(line) => write!(f, "line {line}: bad line"),
            TraceFault::Packet {
                line,
                direction,
                fault,
            } => write!(f, "line {line}: {direction} {fault}"),
            TraceFault::Truncated { to_filter, to_mta } => {
                write!(f, "{}", TruncatedStreams { to_filter, to_mta })
            }
            TraceFault::ReadFault => f.write_str("read fault"),
            TraceFault::WriteFault => f.write_str("write fault"),
            TraceFault::TurnLimit => f.write_str("turn limit"),
            TraceFault::NoMemory => f.write_str("out of memory"),
        }
    }
}

impl Error for TraceFault {}

/// The fault line of an input that ended in a packet of this direction, with so many bytes of it.
#[derive(Drop)]
struct TruncatedStream {
    direction: Direction,
    bytes: usize,
}

impl fmt::Display for TruncatedStream {
    ghost output = { λ end. Some (truncated_line end.direction end.bytes) };

    fn fmt<W: fmt::Write>(&self, f: &mut fmt::Formatter<W>) -> fmt::Result {
        let TruncatedStream { direction, bytes } = *self;
        write!(f, "end: {direction} truncated {bytes} bytes")
    }
}

/// The fault lines of an input that ended too early: one for each direction in which it did, and it did in one.
#[derive(Drop)]
struct TruncatedStreams {
    to_filter: usize,
    to_mta: usize,
}

impl TruncatedStreams {
    fn to_filter(&self) -> TruncatedStream
        ensures { (result.direction ≡ ToFilter) × (result.bytes ≡ self.now.to_filter) }
    {
        TruncatedStream {
            direction: Direction::ToFilter,
            bytes: self.to_filter,
        }
    }

    fn to_mta(&self) -> TruncatedStream
        ensures { (result.direction ≡ ToMta) × (result.bytes ≡ self.now.to_mta) }
    {
        TruncatedStream {
            direction: Direction::ToMta,
            bytes: self.to_mta,
        }
    }
}

impl fmt::Display for TruncatedStreams {
    ghost output = { λ ends. Some (truncated_lines ends.to_filter ends.to_mta) };

    fn fmt<W: fmt::Write>(&self, f: &mut fmt::Formatter<W>) -> fmt::Result {
        if self.to_mta == 0 {
            write!(f, "{}", self.to_filter())
        } else if self.to_filter == 0 {
            write!(f, "{}", self.to_mta())
        } else {
            write!(f, "{}\n{}", self.to_filter(), self.to_mta())
        }
    }
}

impl<E: RefusedMemory> From<E> for TraceFault {
    ghost from_gives = { λ _ e. e ≡ faults.NoMemory };

    fn from(_error: E) -> TraceFault {
        TraceFault::NoMemory
    }
}
