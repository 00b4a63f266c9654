//! The reports of a session, and those that are expected.

use crate::input_files::open;
use milter_cli::{DifferingReports, Failure, FileError, InputFile, ToolError, output_error};
use milter_play::{check_reports, load_reports};
use milter_text::write_text;
use std::io;

/// The reports that are expected by the file at this path; none where there is no path.
pub(crate) fn expected_at(
    rt: &HostRuntime,
    path: Option<&str>,
) -> Result<Option<Vec<u8>>, ToolError> {
    let Some(path) = path else {
        return Ok(None);
    };
    let file = open(rt, InputFile::Reports, path)?;
    match load_reports(rt.alloc(), file) {
        Ok(reports) => Ok(Some(reports)),
        Err(error) => Err(ToolError::File(error)),
    }
}

/// The error of reports that are kept in memory: there a write fails where memory is refused.
pub(crate) fn kept_error(error: ToolError) -> ToolError {
    match error {
        ToolError::Write | ToolError::File(FileError::Write) => ToolError::NoMemory,
        error => error,
    }
}

/// Prints these reports; only where they aren't the expected ones, if some are expected.
pub(crate) fn end_reports<'x>(
    rt: &HostRuntime,
    found: Vec<u8>,
    expected: Option<Vec<u8>>,
) -> Result<(), Failure<'x>> {
    let Some(expected) = expected else {
        return match write_text(&mut io::writer(rt), found.as_slice()) {
            Ok(()) => Ok(()),
            Err(fault) => Err(Failure::from(output_error(fault))),
        };
    };
    let writer = &mut io::writer(rt);
    match check_reports(rt.alloc(), found.as_slice(), expected.as_slice(), writer) {
        Ok(()) => Ok(()),
        Err(error) => Err(Failure::of_reports(error, DifferingReports { found, expected })),
    }
}
