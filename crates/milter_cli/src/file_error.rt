//! How the reading of a file, and the printing of what it has, can end before their end.

ghost use Rattle.std.specs.Prelude.{◌≡◌, ◌↔◌, IsTrue, Some};
ghost use Rattle.milter_cli.specs.FileRun.{IsFileFault, fault_error, file_error_text, file_word, read_error, text_error};

use milter_text::TextFault;
use std::error::Error;
use std::fmt;
use std::io::ErrorKind;

/// A kind of file that is read. The text of each is its word in fault lines.
#[derive(Clone, Copy, Debug, PartialEq, Eq)]
pub enum InputFile {
    /// A session file.
    Session,
    /// A rule file.
    Rules,
    /// An event file.
    Events,
    /// A file of the reports that are expected.
    Reports,
    /// A trace.
    Trace,
    /// A capture.
    Capture,
}

impl fmt::Display for InputFile {
    ghost output = { λ file. Some (file_word file) };

    fn fmt<W: fmt::Write>(&self, f: &mut fmt::Formatter<W>) -> fmt::Result {
        f.write_str(match self {
            InputFile::Session => "session",
            InputFile::Rules => "rules",
            InputFile::Events => "events",
            InputFile::Reports => "reports",
            InputFile::Trace => "trace",
            InputFile::Capture => "capture",
        })
    }
}

/// Why a file was not read, or what it has not printed to its end. The text of each is its fault line, without the LF.
/// After `Write` and `NoMemory` a prefix of the text may have been printed, and also after `Read` of a trace, which is
/// printed as it is read; after the others nothing was.
#[derive(Clone, Copy, Debug, PartialEq, Eq)]
pub enum FileError {
    /// The file couldn't be read, or has more than 134,217,728 bytes where it is read as a whole.
    Read(InputFile),
    /// The file isn't of its form.
    Fault {
        /// The file's kind.
        file: InputFile,
        /// The number of the line at fault, from 1.
        line: u64,
        /// The fault's number, from 1.
        number: u8,
    },
    /// A write failed, or took nothing.
    Write,
    /// Memory was refused.
    NoMemory,
}

impl fmt::Display for FileError {
    ghost output = { λ error. Some (file_error_text error) };

    fn fmt<W: fmt::Write>(&self, f: &mut fmt::Formatter<W>) -> fmt::Result {
        match *self {
            FileError::Read(file) => write!(f, "cannot read {file}"),
            FileError::Fault { file, line, number } => {
                write!(f, "{file} line {line}: fault {number}")
            }
            FileError::Write => f.write_str("write fault"),
            FileError::NoMemory => f.write_str("out of memory"),
        }
    }
}

impl Error for FileError {}

impl FileError {
    /// Whether it is a fault of what the file has, which stays until the file changes. Doesn't allocate.
    pub fn is_file_fault(self) -> bool
        ensures { IsTrue result ↔ IsFileFault self }
    {
        matches!(self, FileError::Fault { .. })
    }
}

/// The error of a file that isn't opened, or not read.
pub fn read_error(file: InputFile, kind: ErrorKind) -> FileError
    ensures { result ≡ read_error file kind }
{
    match kind {
        ErrorKind::OutOfMemory => FileError::NoMemory,
        _ => FileError::Read(file),
    }
}

/// The error of a file that isn't of its form: of a fault at this line with this number, or, where it has no line, of
/// refused memory.
pub fn fault_error(file: InputFile, line: Option<u64>, number: u8) -> FileError
    ensures { result ≡ fault_error file line number }
{
    match line {
        Some(line) => FileError::Fault { file, line, number },
        None => FileError::NoMemory,
    }
}

/// The error of a text that is not written.
pub fn text_error(fault: TextFault) -> FileError
    ensures { result ≡ text_error fault }
{
    match fault {
        TextFault::Write => FileError::Write,
        TextFault::NoMemory => FileError::NoMemory,
    }
}
