//! Why the program did not do what it was asked: its lines on standard error, and its status.

ghost use Rattle.std.specs.Prelude.{◌≡◌, OnOk};
ghost use Rattle.std.specs.Process.{exit_status};
ghost use Rattle.clap.specs.Words.{kind_of};
ghost use Rattle.milter_cli.specs.ToolError.{EndsBy, IsShown, argument_error, error_lines, listen_error, output_error, service_error, status_of};

use crate::answer_error::AnswerError;
use crate::file_error::FileError;
use clap::error::ErrorKind;
use milter_capture::CaptureFault;
use milter_command_line::UsageError;
use milter_service::ServiceError;
use milter_text::TextFault;
use milter_trace::TraceFault;
use std::error::Error;
use std::fmt;
use std::io::{self, Write};
use std::process::ExitCode;

/// Why the program did not do what it was asked. The text of each is what it writes on standard error: whole lines.
#[derive(Debug, Drop)]
pub enum ToolError {
    /// A wrong use of the program.
    Usage(UsageError),
    /// A trace that ended before its input.
    Trace(TraceFault),
    /// A capture that was not read to its end.
    Capture(CaptureFault),
    /// A file that was not read, or what it has not printed to its end.
    File(FileError),
    /// A mail server that was not answered to its end.
    Answer(AnswerError),
    /// A socket that was not bound, or that the system doesn't wait for.
    Listen,
    /// A filter to which no connection was made for as long as that was waited for.
    Connect,
    /// A directory of traces that can't be made, or that has traces already.
    Record,
    /// Reports that aren't the expected ones, or a filter that doesn't answer as it was recorded.
    Differs {
        /// The number of the line, from 1, in which the reports begin to differ; or of the line of the trace in which
        /// the first command ends that was answered otherwise.
        line: u64,
    },
    /// What was printed has findings: a warning of rules, what broke in a filter that was tried, or a load of which the
    /// filter settled no message.
    Findings,
    /// Help, the version, the line of a connection, the reports of a session, or the lines of a conversation that is
    /// sent again were not written.
    Write,
    /// Memory was refused before there was a subcommand, for the line of a connection, in the playing of a session, or
    /// for the lines of a conversation that is sent again.
    NoMemory,
}

impl fmt::Display for ToolError {
    ghost output = { error_lines };

    fn fmt<W: fmt::Write>(&self, f: &mut fmt::Formatter<W>) -> fmt::Result {
        match self {
            ToolError::Usage(error) => write!(f, "{error}"),
            ToolError::Trace(fault) => writeln!(f, "{fault}"),
            ToolError::Capture(fault) => writeln!(f, "{fault}"),
            ToolError::File(error) => writeln!(f, "{error}"),
            ToolError::Answer(error) => writeln!(f, "{error}"),
            ToolError::Listen => writeln!(f, "cannot listen"),
            ToolError::Connect => writeln!(f, "cannot connect"),
            ToolError::Record => writeln!(f, "cannot record"),
            ToolError::Differs { line } => writeln!(f, "differs at line {line}"),
            ToolError::Findings => Ok(()),
            ToolError::Write => writeln!(f, "write fault"),
            ToolError::NoMemory => writeln!(f, "out of memory"),
        }
    }
}

impl Error for ToolError {}

/// Ends the program: writes the lines of its error, where it has one, and answers with its status. That is 0 where the
/// program did what it was asked, 2 after a wrong use of the command line, and 1 after any other error, also where
/// the lines are not written.
pub fn report<W: Write>(ended: Result<(), ToolError>, errors: &mut W) -> ExitCode
    ensures status { exit_status result ≡ status_of ended }
    ensures silent { OnOk ended (W.contents errors.new ≡ W.contents errors.old) }
{
    let Err(error) = ended else {
        return ExitCode::SUCCESS;
    };
    let _ = write!(errors, "{error}");
    ExitCode::from(match error {
        ToolError::Usage(_) => 2,
        ToolError::Trace(_) | ToolError::Capture(_) => 1,
        ToolError::File(_) | ToolError::Answer(_) => 1,
        ToolError::Listen | ToolError::Connect | ToolError::Write | ToolError::NoMemory => 1,
        ToolError::Differs { .. } | ToolError::Findings | ToolError::Record => 1,
    })
}

/// Why the words of the command line are not there: an argument isn't UTF-8, or memory was refused.
pub fn argument_error(kind: io::ErrorKind) -> ToolError
    ensures { result ≡ argument_error kind }
{
    match kind {
        io::ErrorKind::OutOfMemory => ToolError::NoMemory,
        _ => ToolError::Usage(UsageError::NotUtf8),
    }
}

/// The error of a socket that isn't bound, or of memory that was refused for it.
pub fn listen_error(kind: io::ErrorKind) -> ToolError
    ensures { result ≡ listen_error kind }
{
    match kind {
        io::ErrorKind::OutOfMemory => ToolError::NoMemory,
        _ => ToolError::Listen,
    }
}

/// The error of the lines of connections, or of the reports of a session, that were not all written.
pub fn output_error(fault: TextFault) -> ToolError
    ensures { result ≡ output_error fault }
{
    match fault {
        TextFault::Write => ToolError::Write,
        TextFault::NoMemory => ToolError::NoMemory,
    }
}

/// The error of a service that has ended.
pub fn service_error(error: ServiceError) -> ToolError
    ensures { result ≡ service_error error }
{
    match error {
        ServiceError::Wait => ToolError::Listen,
        ServiceError::Write => ToolError::Write,
        ServiceError::NoMemory => ToolError::NoMemory,
    }
}

/// Ends a command line that has no request: writes help and the version, where one of them was asked for, and answers
/// with any other error.
pub fn end_usage<W: Write>(error: clap::Error, output: &mut W) -> Result<(), ToolError>
    ensures ends { EndsBy (kind_of error) error result }
    ensures unwritten { ¬ IsShown (kind_of error) → W.contents output.new ≡ W.contents output.old }
{
    match error.kind() {
        ErrorKind::DisplayHelp | ErrorKind::DisplayVersion => match write!(output, "{error}") {
            Ok(()) => Ok(()),
            Err(_) => Err(ToolError::Write),
        },
        ErrorKind::OutOfMemory => Err(ToolError::NoMemory),
        _ => Err(ToolError::Usage(UsageError::CommandLine(error))),
    }
}
