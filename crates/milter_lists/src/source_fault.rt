//! What can be wrong with the lines of lists.

ghost use Rattle.std.specs.Prelude.{◌≡◌};
ghost use Rattle.milter_text.specs.declared.line_fault.LineFault.{LineFault};
ghost use Rattle.milter_lists.specs.SourceFault.{of_line_fault, source_fault_line};

use milter_text::LineFault;
use thiserror::Error;

/// Why the lines of lists were not read: the first line that is at fault, and what is wrong with it. Lines are numbered
/// from 1, the skipped ones too.
#[derive(Clone, Copy, Debug, PartialEq, Eq, Error)]
pub enum SourceFault {
    /// The line is not of the form of a list's line, or not in words; or a list before it has its name.
    #[error("line {0}: unknown word")]
    UnknownWord(u64),
    /// This is one list too many.
    #[error("line {0}: too large")]
    TooLarge(u64),
    /// The memory that was asked for was refused.
    #[error("out of memory")]
    NoMemory,
}

impl SourceFault {
    /// The number of the line that is at fault; none for `NoMemory`.
    pub fn line(&self) -> Option<u64>
        ensures { result ≡ source_fault_line self.now }
    {
        match self {
            SourceFault::UnknownWord(line) | SourceFault::TooLarge(line) => Some(*line),
            SourceFault::NoMemory => None,
        }
    }
}

impl<E: Into<LineFault>> From<E> for SourceFault {
    ghost from_gives = { λ error e. (fault : LineFault) × E.converts error fault × (e ≡ of_line_fault fault) };

    fn from(error: E) -> SourceFault {
        match error.into() {
            LineFault::NotInWords(line) => SourceFault::UnknownWord(line),
            LineFault::NoMemory => SourceFault::NoMemory,
        }
    }
}
