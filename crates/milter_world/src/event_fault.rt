//! What can be wrong with an event file.

ghost use Rattle.std.specs.Prelude.{◌≡◌};
ghost use Rattle.milter_text.specs.declared.line_fault.LineFault.{LineFault};
ghost use Rattle.milter_world.specs.EventFault.{event_fault_line, event_fault_number, of_line_fault};

use milter_text::LineFault;
use thiserror::Error;

/// Why a file is no event file: the first line that is at fault, and what is wrong with it. Lines are numbered from 1,
/// the skipped ones too.
#[derive(Clone, Copy, Debug, PartialEq, Eq, Error)]
pub enum EventFault {
    /// The line is not in words, or its words are not of an event, of a round or of rounds.
    #[error("line {0}: unknown line")]
    UnknownLine(u64),
    /// With this line there are more than [`EVENTS_MAX`](crate::EVENTS_MAX) events in all.
    #[error("line {0}: too many events")]
    TooMany(u64),
    /// The memory that was asked for was refused.
    #[error("out of memory")]
    NoMemory,
}

impl EventFault {
    /// The fault's number: 1 for `UnknownLine`, 2 for `TooMany`, 3 for `NoMemory`.
    pub fn number(&self) -> u8
        ensures { result ≡ event_fault_number self.now }
    {
        match self {
            EventFault::UnknownLine(_) => 1,
            EventFault::TooMany(_) => 2,
            EventFault::NoMemory => 3,
        }
    }

    /// The number of the line that is at fault; none for `NoMemory`.
    pub fn line(&self) -> Option<u64>
        ensures { result ≡ event_fault_line self.now }
    {
        match self {
            EventFault::UnknownLine(line) | EventFault::TooMany(line) => Some(*line),
            EventFault::NoMemory => None,
        }
    }
}

impl<E: Into<LineFault>> From<E> for EventFault {
    ghost from_gives = { λ error e. (fault : LineFault) × E.converts error fault × (e ≡ of_line_fault fault) };

    fn from(error: E) -> EventFault {
        match error.into() {
            LineFault::NotInWords(line) => EventFault::UnknownLine(line),
            LineFault::NoMemory => EventFault::NoMemory,
        }
    }
}
