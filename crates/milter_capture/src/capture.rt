//! The reading of a capture.

use crate::capture_reader::CaptureReader;
use crate::connection::Connection;
use crate::connection_table::ConnectionTable;
use crate::fault::CaptureFault;
use crate::record::{Frame, Record};
use crate::segment::segment_in;
use std::alloc::Global;

/// What was read of a capture.
#[derive(Drop)]
pub struct Capture<'a> {
    /// Its TCP connections, in the order in which they begin.
    pub connections: Vec<Connection<'a>>,
    /// Why it was not read to its end, where a record is at fault.
    pub fault: Option<CaptureFault>,
}

/// The TCP connections of the capture with these bytes, up to a record that is at fault. Frames of other protocols and
/// fragments of IP packets are left out. The fault is that it is no capture, or that memory was refused.
pub fn read_capture(alloc: Global, bytes: &[u8]) -> Result<Capture<'_>, CaptureFault> {
    let mut reader = CaptureReader::new(alloc, bytes)?;
    let mut table = ConnectionTable::new(alloc);
    let fault = match read_records(&mut reader, &mut table, bytes.len()) {
        Ok(()) => None,
        Err(CaptureFault::NoMemory) => return Err(CaptureFault::NoMemory),
        Err(fault) => Some(fault),
    };
    Ok(Capture {
        connections: table.connections,
        fault,
    })
}

/// Adds the segments of the records to the connections, of which there are so many at most.
fn read_records<'a>(
    reader: &mut CaptureReader<'a>,
    table: &mut ConnectionTable<'a>,
    most: usize,
) -> Result<(), CaptureFault> {
    for _ in 0..most {
        match reader.next()? {
            Record::End => return Ok(()),
            Record::Other => {}
            Record::Frame(frame) => add_frame(table, &frame)?,
        }
    }
    Ok(())
}

/// Adds the segment of a frame, if it has one.
fn add_frame<'a>(table: &mut ConnectionTable<'a>, frame: &Frame<'a>) -> Result<(), CaptureFault> {
    match segment_in(frame) {
        Some(segment) => table.receive(&segment, frame.time),
        None => Ok(()),
    }
}
