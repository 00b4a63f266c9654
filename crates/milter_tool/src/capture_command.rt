//! The subcommand `trace` of captures.

use crate::input_files::open;
use milter_capture::{PrintFault, print_capture};
use milter_cli::{Failure, InputFile, ToolError, output_error, read_file};
use milter_trace::TraceForm;
use std::io::{self, Read};

/// Prints the conversations of the captures at these paths, one capture after another up to the first fault; or those
/// of standard input, where there is no path.
pub(crate) fn print_captures<'x>(
    rt: &HostRuntime,
    form: TraceForm,
    paths: &[&'x str],
) -> Result<(), Failure<'x>> {
    if paths.is_empty() {
        return Ok(print_from(rt, form, rt.reader())?);
    }
    for path in paths {
        if let Err(error) = print_file(rt, form, path) {
            return Err(Failure::of_file(error, path));
        }
    }
    Ok(())
}

/// Prints the conversations of the capture at this path.
fn print_file(rt: &HostRuntime, form: TraceForm, path: &str) -> Result<(), ToolError> {
    let file = open(rt, InputFile::Capture, path)?;
    print_from(rt, form, file)
}

/// Prints the conversations of the capture that is read from here.
fn print_from<I: Read + Drop>(
    rt: &HostRuntime,
    form: TraceForm,
    reader: I,
) -> Result<(), ToolError> {
    let bytes = read_file(rt.alloc(), InputFile::Capture, reader).map_err(ToolError::File)?;
    match print_capture(rt.alloc(), form, bytes.as_slice(), &mut io::writer(rt)) {
        Ok(()) => Ok(()),
        Err(PrintFault::Capture(fault)) => Err(ToolError::Capture(fault)),
        Err(PrintFault::Text(fault)) => Err(output_error(fault)),
    }
}
