//! Wrong uses of the program, and their lines on standard error.

ghost use Rattle.milter_command_line.specs.UsageError.{usage_lines};

use std::error::Error;
use std::fmt;

/// A wrong use of the program. The text of each is what is written on standard error: whole lines.
#[derive(Debug, Drop)]
pub enum UsageError {
    /// A wrong command line, and the text that explains it.
    CommandLine(clap::Error),
    /// An argument isn't UTF-8.
    NotUtf8,
    /// A value of `--actions` that names no set of actions.
    BadActions,
    /// A value of `--protocol` that names no set of protocol bits.
    BadProtocol,
    /// A value of `--macro` that gives no macro.
    BadMacro,
    /// A value of `--only` that names no trials.
    BadTrials,
    /// A text that names no address.
    BadAddress,
    /// A value of `--mode` with a digit that isn't octal.
    BadMode,
}

impl fmt::Display for UsageError {
    ghost output = { usage_lines };

    fn fmt<W: fmt::Write>(&self, f: &mut fmt::Formatter<W>) -> fmt::Result {
        match self {
            UsageError::CommandLine(error) => write!(f, "{error}"),
            UsageError::NotUtf8 => {
                writeln!(
                    f,
                    "error: invalid UTF-8 was detected in one or more arguments"
                )
            }
            UsageError::BadActions => writeln!(f, "bad value for --actions"),
            UsageError::BadProtocol => writeln!(f, "bad value for --protocol"),
            UsageError::BadMacro => writeln!(f, "bad value for --macro"),
            UsageError::BadTrials => writeln!(f, "bad value for --only"),
            UsageError::BadAddress => writeln!(f, "bad address"),
            UsageError::BadMode => writeln!(f, "bad mode"),
        }
    }
}

impl Error for UsageError {}
