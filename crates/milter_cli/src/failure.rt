//! What is known of a fault with which the program ends.

use crate::tool_error::ToolError;
use std::io::ErrorKind;

/// A socket that the system refused.
#[derive(Clone, Copy)]
pub struct SocketFault<'a> {
    /// The text of its address.
    pub address: &'a str,
    /// Why it was refused; none where the system didn't say it.
    pub kind: Option<ErrorKind>,
}

/// Reports that aren't the expected ones, and these.
#[derive(Drop)]
pub struct DifferingReports {
    /// The reports that were found.
    pub found: Vec<u8>,
    /// Those that are expected, of which lines may be patterns.
    pub expected: Vec<u8>,
}

/// Why the program did not do what it was asked, and the file, the socket or the reports that this is about.
#[derive(Drop)]
pub struct Failure<'a> {
    /// The error, which has the line on standard error and the status.
    pub error: ToolError,
    /// The path of the file, where it is one of several.
    pub file: Option<&'a str>,
    /// The socket, where there is one.
    pub socket: Option<SocketFault<'a>>,
    /// The reports, where they aren't the expected ones.
    pub reports: Option<DifferingReports>,
}

impl<'a> Failure<'a> {
    /// The failure by the file at this path, which is one of several.
    pub fn of_file(error: ToolError, path: &'a str) -> Self {
        Failure {
            error,
            file: Some(path),
            socket: None,
            reports: None,
        }
    }

    /// The failure by a socket.
    pub fn of_socket(error: ToolError, address: &'a str, kind: Option<ErrorKind>) -> Self {
        Failure {
            error,
            file: None,
            socket: Some(SocketFault { address, kind }),
            reports: None,
        }
    }

    /// The failure by reports that aren't the expected ones.
    pub fn of_reports(error: ToolError, reports: DifferingReports) -> Self {
        Failure {
            error,
            file: None,
            socket: None,
            reports: Some(reports),
        }
    }
}

impl<'a> From<ToolError> for Failure<'a> {
    fn from(error: ToolError) -> Self {
        Failure {
            error,
            file: None,
            socket: None,
            reports: None,
        }
    }
}
