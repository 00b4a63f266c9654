//! What can be wrong with a session file.

ghost use Rattle.std.specs.Prelude.{◌≡◌};
ghost use Rattle.milter_text.specs.declared.line_fault.LineFault.{LineFault};
ghost use Rattle.milter_mail_file.specs.SessionFault.{of_line_fault, session_fault_line, session_fault_number};

use milter_text::LineFault;
use thiserror::Error;

/// Why a session file is parsed as no session: the first line that is at fault, and what is wrong with it. Lines are
/// numbered from 1, the skipped ones too; what is missing at the end of the file has the number after the last line's.
#[derive(Clone, Copy, Debug, PartialEq, Eq, Error)]
pub enum SessionFault {
    /// The line is not in words, or its keyword isn't known or allowed here, or its words don't have its form.
    #[error("line {0}: unknown line")]
    UnknownLine(u64),
    /// A client line was due, and this is none, or it does not have its form.
    #[error("line {0}: bad client")]
    BadClient(u64),
    /// A message ends here that has no recipient.
    #[error("line {0}: no recipient")]
    NoRecipient(u64),
    /// A header line that doesn't have its form, or whose name isn't one.
    #[error("line {0}: bad header")]
    BadHeader(u64),
    /// The file ends within a message.
    #[error("line {0}: no end")]
    NoEnd(u64),
    /// A packet would be too long, or a message that ends here weighs too much.
    #[error("line {0}: too large")]
    TooLarge(u64),
    /// A text has a NUL, and isn't one of a body.
    #[error("line {0}: NUL")]
    Nul(u64),
    /// The memory that was asked for was refused.
    #[error("out of memory")]
    NoMemory,
}

impl SessionFault {
    /// The fault's number, from 1 for `UnknownLine` to 8 for `NoMemory`.
    pub fn number(&self) -> u8
        ensures { result ≡ session_fault_number self.now }
    {
        match self {
            SessionFault::UnknownLine(_) => 1,
            SessionFault::BadClient(_) => 2,
            SessionFault::NoRecipient(_) => 3,
            SessionFault::BadHeader(_) => 4,
            SessionFault::NoEnd(_) => 5,
            SessionFault::TooLarge(_) => 6,
            SessionFault::Nul(_) => 7,
            SessionFault::NoMemory => 8,
        }
    }

    /// The number of the line that is at fault; none for `NoMemory`.
    pub fn line(&self) -> Option<u64>
        ensures { result ≡ session_fault_line self.now }
    {
        match self {
            SessionFault::UnknownLine(line)
            | SessionFault::BadClient(line)
            | SessionFault::NoRecipient(line)
            | SessionFault::BadHeader(line)
            | SessionFault::NoEnd(line)
            | SessionFault::TooLarge(line)
            | SessionFault::Nul(line) => Some(*line),
            SessionFault::NoMemory => None,
        }
    }
}

impl<E: Into<LineFault>> From<E> for SessionFault {
    ghost from_gives = { λ error e. (fault : LineFault) × E.converts error fault × (e ≡ of_line_fault fault) };

    fn from(error: E) -> SessionFault {
        match error.into() {
            LineFault::NotInWords(line) => SessionFault::UnknownLine(line),
            LineFault::NoMemory => SessionFault::NoMemory,
        }
    }
}
