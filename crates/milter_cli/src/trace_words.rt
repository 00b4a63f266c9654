//! What is said of faults of a trace, and of one that can't be sent again.

use crate::file_forms::{NO_OFFER, SECOND_OFFER, TRUNCATED};
use milter_replay::{RecordingFault, read_trace};
use milter_rules::{Notes, Span};
use milter_trace::TraceFault;
use milter_wire::{NoMemory, WireFault};

/// Says what a fault of a trace means.
pub(crate) fn say_trace(notes: &mut Notes<'_>, fault: TraceFault) -> Result<(), NoMemory> {
    notes.go_to(line_of(fault));
    notes.say(&[Span::Plain(meaning(fault).as_bytes())])
}

/// Says why a trace with these bytes can't be sent again.
pub(crate) fn say_recording(notes: &mut Notes<'_>, bytes: &[u8]) -> Result<(), NoMemory> {
    let Err(fault) = read_trace(notes.alloc(), bytes) else {
        return Ok(());
    };
    let text = match fault {
        RecordingFault::Trace(TraceFault::NoMemory) => return Err(NoMemory),
        RecordingFault::Trace(fault) => return say_trace(notes, fault),
        RecordingFault::Truncated(_) => TRUNCATED,
        RecordingFault::NoOffer(_) => NO_OFFER,
        RecordingFault::SecondOffer(_) => SECOND_OFFER,
    };
    notes.go_to(fault.line());
    notes.say(&[Span::Plain(text.as_bytes())])
}

/// The number of the line that is at fault.
fn line_of(fault: TraceFault) -> Option<u64> {
    match fault {
        TraceFault::BadLine(line) | TraceFault::Packet { line, .. } => Some(line),
        _ => None,
    }
}

/// What a fault means, and what is due.
fn meaning(fault: TraceFault) -> &'static str {
    match fault {
        TraceFault::BadLine(_) => {
            "a line is > DIGITS or < DIGITS, with one blank and an even number of hexadecimal digits, \
             at most 262,144 bytes in all"
        }
        TraceFault::Packet { fault, .. } => packet_meaning(fault),
        TraceFault::Truncated { .. } =>
            "the input ends within a packet: bytes are missing at its end",
        TraceFault::ReadFault => "it couldn't be read: it is closed, or a folder",
        TraceFault::WriteFault => "standard output couldn't be written",
        TraceFault::TurnLimit => "it goes on after 1,073,741,824 reads",
        TraceFault::NoMemory => "memory was refused",
    }
}

/// What a fault of a packet means, and what is due.
fn packet_meaning(fault: WireFault) -> &'static str {
    match fault {
        WireFault::ZeroLength =>
            "a packet has its code at least: its first four bytes give a length from 1 to 65536",
        WireFault::TooLong(_) => {
            "the first four bytes of a packet give its length, of at most 65536: a byte before them is missing, \
             or is one too many"
        }
        WireFault::UnknownCode(_) => {
            "no packet of this direction has this code: the line has the other direction, or a byte before is missing"
        }
        WireFault::Malformed(_) => {
            "the payload isn't in the layout of its code, of which docs/PROTOCOL.md has a table"
        }
        _ => "the packet can't be read",
    }
}
