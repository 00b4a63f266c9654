//! The reading of a trace into a recorded conversation.

ghost use Rattle.std.specs.Prelude.{◌≡◌, ◌++◌, IfOk, OnOk};
ghost use Rattle.milter_fields.specs.Stream.{IsUnfinished};
ghost use Rattle.milter_text.specs.Lines.{lines_of};
ghost use Rattle.milter_trace.specs.declared.direction.Direction.TheVariants.{ToFilter};
ghost use Rattle.milter_trace.specs.ParsedLine.{parsed_line};
ghost use Rattle.milter_trace.specs.Trace.{bytes_if, line_bytes, stream};
ghost use Rattle.milter_replay.specs.ReadExchanges.{HasFitting, IsBetweenLines, bytes_so_far, read_bytes};
ghost use Rattle.milter_replay.specs.Recordings.{AllFit, commands_bytes};

use crate::conversation::Recording;
use crate::exchange_reader::ExchangeReader;
use crate::recording_fault::RecordingFault;
use milter_trace::{
    Direction, TraceFault, UndecodedLine, decode_digits, line_end, packet_fault, parse_line,
};
use milter_wire::Splitter;
use std::alloc::Global;

/// What was read of a trace between two lines.
#[derive(Drop)]
struct TraceReader {
    to_filter: Splitter,
    to_mta: Splitter,
    exchanges: ExchangeReader,
}

/// Reads a trace to its end: the commands of the mail server, each with the packets of the filter that answer it, but
/// for progress. A packet answers the first command to which a reply is still due, by what was negotiated in the
/// recording, up to its verdict; where none is due it is put to the last command before it. The form of a trace is that
/// of [`milter_trace::trace_run`].
///
/// The fault is the first one of the trace.
pub fn read_trace(alloc: Global, bytes: &[u8]) -> Result<Recording, RecordingFault>
    // Each command has an encoding.
    ensures fitting { IfOk result (λ recording. AllFit recording.exchanges.items) }
    // The packets of the commands are what the trace has to the filter, byte for byte.
    ensures commands { IfOk result (λ recording.
        commands_bytes recording.exchanges.items ≡ stream ToFilter (lines_of bytes.now)) }
{
    let mut reader = TraceReader {
        to_filter: Splitter::new(alloc),
        to_mta: Splitter::new(alloc),
        exchanges: ExchangeReader::new(alloc),
    };
    let mut number = 0;
    let mut rest = bytes;
    while let Some(end) = line_end(rest) {
        number += 1;
        read_line(alloc, &mut reader, number, &rest[..end], true)?;
        rest = &rest[end + 1..];
    }
    read_line(alloc, &mut reader, number + 1, rest, false)?;
    whole_recording(reader, number + 1)
}

/// Reads the line with this number, which has these bytes before its LF, or before the end of the trace.
fn read_line(
    alloc: Global,
    reader: &mut TraceReader,
    number: u64,
    line: &[u8],
    ended: bool,
) -> Result<(), RecordingFault>
    requires { IsBetweenLines reader.old }
    ensures between { OnOk result (IsBetweenLines reader.new) }
    ensures bytes { OnOk result (bytes_so_far reader.new
        ≡ bytes_so_far reader.old ++ line_bytes ToFilter (parsed_line (record { bytes = line.now; ended = ended }))) }
{
    let (direction, digits) = match parse_line(line, ended) {
        UndecodedLine::Skipped => return Ok(()),
        UndecodedLine::Bad => return Err(RecordingFault::Trace(TraceFault::BadLine(number))),
        UndecodedLine::Digits(direction, digits) => (direction, digits),
    };
    let bytes = match decode_digits(alloc, digits, number) {
        Ok(bytes) => bytes,
        Err(fault) => return Err(RecordingFault::Trace(fault)),
    };
    let TraceReader {
        to_filter,
        to_mta,
        exchanges,
    } = reader;
    let bytes = bytes.as_slice();
    match direction {
        Direction::ToFilter => read_packets(number, direction, to_filter, bytes, exchanges),
        Direction::ToMta => read_packets(number, direction, to_mta, bytes, exchanges),
    }
}

/// Takes the packets of a direction that become whole with these bytes of a line.
fn read_packets(
    number: u64,
    direction: Direction,
    splitter: &mut Splitter,
    bytes: &[u8],
    exchanges: &mut ExchangeReader,
) -> Result<(), RecordingFault>
    requires unfinished { IsUnfinished splitter.old }
    requires fitting { HasFitting exchanges.old }
    ensures unfinished { OnOk result (IsUnfinished splitter.new) }
    ensures fitting { OnOk result (HasFitting exchanges.new) }
    ensures bytes { OnOk result (read_bytes exchanges.new ++ bytes_if ToFilter direction splitter.new
        ≡ read_bytes exchanges.old ++ bytes_if ToFilter direction (splitter.old ++ bytes.now)) }
{
    let mut rest = bytes;
    while !rest.is_empty() {
        let taken = splitter.feed(rest)?;
        rest = &rest[taken..];
        match splitter.next() {
            Ok(Some(packet)) => exchanges.on_packet(number, direction, &packet)?,
            Ok(None) => {}
            Err(fault) => {
                return Err(RecordingFault::Trace(packet_fault(number, direction, fault)));
            }
        }
    }
    Ok(())
}

/// The conversation, at the end of a trace whose last line has this number.
fn whole_recording(reader: TraceReader, line: u64) -> Result<Recording, RecordingFault>
    requires { HasFitting reader.exchanges }
    ensures fitting { IfOk result (λ recording. AllFit recording.exchanges.items) }
    ensures commands { IfOk result (λ recording. commands_bytes recording.exchanges.items ≡ bytes_so_far reader) }
{
    let TraceReader {
        to_filter,
        to_mta,
        exchanges,
    } = reader;
    if to_filter.unread() != 0 || to_mta.unread() != 0 {
        return Err(RecordingFault::Truncated(line));
    }
    exchanges.into_recording(line)
}
