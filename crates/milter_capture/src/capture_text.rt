//! The lines of a capture.

use crate::capture::{Capture, read_capture};
use crate::connection_text::print_connection;
use crate::print_fault::PrintFault;
use milter_text::write_text;
use milter_trace::TraceForm;
use milter_wire::NoMemory;
use std::alloc::Global;
use std::io::Write;

/// Writes the lines of the capture with these bytes: those of each connection between a mail server and a filter, in
/// the order in which they begin, and then how many other connections there are.
///
/// Where a record of the file is at fault, that is the fault after all lines of what stands before it.
pub fn print_capture<W: Write>(
    alloc: Global,
    form: TraceForm,
    bytes: &[u8],
    writer: &mut W,
) -> Result<(), PrintFault> {
    let capture = match read_capture(alloc, bytes) {
        Ok(capture) => capture,
        Err(fault) => return Err(PrintFault::Capture(fault)),
    };
    print_connections(alloc, form, &capture, writer)?;
    match capture.fault {
        Some(fault) => Err(PrintFault::Capture(fault)),
        None => Ok(()),
    }
}

/// Writes the lines of what was read of a capture.
fn print_connections<W: Write>(
    alloc: Global,
    form: TraceForm,
    capture: &Capture<'_>,
    writer: &mut W,
) -> Result<(), PrintFault> {
    let mut number: u64 = 0;
    let mut others: u64 = 0;
    for connection in capture.connections.as_slice() {
        if connection.is_of_milter() {
            number = number.saturating_add(1);
            print_connection(alloc, form, number, connection, writer)?;
        } else {
            others = others.saturating_add(1);
        }
    }
    let line = left_out(alloc, others)?;
    Ok(write_text(writer, line.as_bytes())?)
}

/// The last line: how many connections aren't printed.
fn left_out(alloc: Global, count: u64) -> Result<String, NoMemory> {
    Ok(format!(in alloc; "left out {count} connections\n")?)
}
