//! The subcommand `trace`.

use crate::capture_command::print_captures;
use crate::input_files::open;
use milter_cli::{Failure, FileError, InputFile, ToolError};
use milter_command_line::TraceRequest;
use milter_trace::{TraceFault, TraceForm, trace_run_as};
use std::io;

/// Prints the packets of the traces that are asked for, or of the captures, one after another up to the first fault; or
/// those of standard input, where no file is named.
pub(crate) fn print_traces<'x>(
    rt: &HostRuntime,
    asked: &TraceRequest<'x>,
) -> Result<(), Failure<'x>> {
    let form = TraceForm {
        names: asked.names,
        bodies: asked.bodies,
    };
    if asked.pcap {
        return print_captures(rt, form, asked.files.as_slice());
    }
    if asked.files.is_empty() {
        return Ok(print_input(rt, form)?);
    }
    for path in asked.files.as_slice() {
        if let Err(error) = print_file(rt, form, path) {
            return Err(Failure::of_file(error, path));
        }
    }
    Ok(())
}

/// Prints the packets of the trace on standard input.
fn print_input(rt: &HostRuntime, form: TraceForm) -> Result<(), ToolError> {
    let mut reader = rt.reader();
    let mut writer = io::writer(rt);
    trace_run_as(rt.alloc(), form, &mut reader, &mut writer).map_err(ToolError::Trace)
}

/// Prints the packets of the trace at this path.
fn print_file(rt: &HostRuntime, form: TraceForm, path: &str) -> Result<(), ToolError> {
    let mut reader = open(rt, InputFile::Trace, path)?;
    let mut writer = io::writer(rt);
    match trace_run_as(rt.alloc(), form, &mut reader, &mut writer) {
        Ok(()) => Ok(()),
        Err(TraceFault::ReadFault) => Err(ToolError::File(FileError::Read(InputFile::Trace))),
        Err(fault) => Err(ToolError::Trace(fault)),
    }
}
