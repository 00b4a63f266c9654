//! How answering to a mail server can end before the mail server has quit.

ghost use Rattle.std.specs.Prelude.{◌≡◌, Some};
ghost use Rattle.milter_cli.specs.AnswerRun.{answer_error_text, ended_as, fault_error};

use milter_filter::{FilterFault, Served};
use std::error::Error;
use std::fmt;

/// Why a mail server was not answered to its end. The text of each is its fault line, without the LF. The replies to
/// what comes before were written, all of them but after `Write` and `NoMemory`.
#[derive(Clone, Copy, Debug, PartialEq, Eq)]
pub enum AnswerError {
    /// The connection was given up.
    Fault {
        /// The number of the filter's fault, from 1.
        number: u8,
    },
    /// The input ended within a packet.
    Truncated {
        /// How many bytes of the packet were read, above 0.
        bytes: usize,
    },
    /// A read failed.
    Read,
    /// A write failed, or took nothing.
    Write,
    /// The input went on after 1,073,741,824 reads.
    TurnLimit,
    /// Memory was refused.
    NoMemory,
}

impl fmt::Display for AnswerError {
    ghost output = { λ error. Some (answer_error_text error) };

    fn fmt<W: fmt::Write>(&self, f: &mut fmt::Formatter<W>) -> fmt::Result {
        match *self {
            AnswerError::Fault { number } => write!(f, "filter fault {number}"),
            AnswerError::Truncated { bytes } => write!(f, "input truncated {bytes} bytes"),
            AnswerError::Read => f.write_str("read fault"),
            AnswerError::Write => f.write_str("write fault"),
            AnswerError::TurnLimit => f.write_str("turn limit"),
            AnswerError::NoMemory => f.write_str("out of memory"),
        }
    }
}

impl Error for AnswerError {}

/// The error of a connection that was served: none where the mail server has quit, or where the input ended after a
/// packet.
pub fn ended_as(served: Served) -> Result<(), AnswerError>
    ensures { result ≡ ended_as served }
{
    match served {
        Served::Quit | Served::Ended(0) => Ok(()),
        Served::Ended(bytes) => Err(AnswerError::Truncated { bytes }),
        Served::Failed(fault) => Err(fault_error(fault)),
        Served::ReadFault => Err(AnswerError::Read),
        Served::WriteFault => Err(AnswerError::Write),
        Served::TurnLimit => Err(AnswerError::TurnLimit),
    }
}

/// The error of a connection that was given up.
fn fault_error(fault: FilterFault) -> AnswerError
    ensures { result ≡ fault_error fault }
{
    match fault {
        FilterFault::NoMemory => AnswerError::NoMemory,
        fault => AnswerError::Fault {
            number: fault.number(),
        },
    }
}
