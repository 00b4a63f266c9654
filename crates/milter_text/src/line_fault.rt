//! What can be wrong with a line of a file of words.

ghost use Rattle.std.specs.Prelude.{◌≡◌};
ghost use Rattle.milter_text.specs.declared.line_fault.LineFault.TheVariants as faults;
ghost use Rattle.milter_text.specs.LineFault.{line_fault_line};

use milter_fields::RefusedMemory;
use thiserror::Error;

/// Why the next line of a file was not read.
#[derive(Clone, Copy, Debug, PartialEq, Eq, Error)]
pub enum LineFault {
    /// The line with this number is not in words.
    #[error("line {0}: not in words")]
    NotInWords(u64),
    /// The memory that was asked for was refused.
    #[error("out of memory")]
    NoMemory,
}

impl LineFault {
    /// The number of the line that is at fault; none for `NoMemory`.
    pub fn line(&self) -> Option<u64>
        ensures { result ≡ line_fault_line self.now }
    {
        match self {
            LineFault::NotInWords(line) => Some(*line),
            LineFault::NoMemory => None,
        }
    }
}

impl<E: RefusedMemory> From<E> for LineFault {
    ghost from_gives = { λ _ e. e ≡ faults.NoMemory };

    fn from(_error: E) -> LineFault {
        LineFault::NoMemory
    }
}
