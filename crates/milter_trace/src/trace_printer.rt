//! The text of a trace, line by line.

ghost use Rattle.std.specs.Prelude.{◌≡◌, ◌<◌, ◌+◌, ◌++◌, ◌^◌, [], Ok, OnOk, length};
ghost use Rattle.milter_fields.specs.Stream.{IsUnfinished, divide};
ghost use Rattle.milter_trace.specs.ParsedLine.{parsed_line};
ghost use Rattle.milter_trace.specs.Trace.{end_trace};
ghost use Rattle.milter_trace.specs.TraceState.{AppendsTrace, initial_state, next_state, division_trace, next_trace, with_unread, unread_in};
ghost use Rattle.hex.specs.Hex.{decode_of};
ghost use Rattle.milter_trace.specs.HexDigits.{DecodesDigits};
ghost use Rattle.milter_trace.specs.PrinterState.{HasUnfinishedStreams, printer_state};

use crate::direction::Direction;
use crate::fault::TraceFault;
use crate::form::TraceForm;
use crate::packet_stream::print_packets;
use crate::trace_line::{UndecodedLine, parse_line};
use hex::FromHexError;
use milter_wire::Splitter;
use std::alloc::Global;

/// A trace between two lines: how it is printed, how many lines there were, the packets that aren't whole, and the text
/// that isn't written yet.
#[derive(Drop)]
pub(crate) struct TracePrinter {
    pub(crate) alloc: Global,
    pub(crate) form: TraceForm,
    pub(crate) lines: u64,
    pub(crate) to_filter: Splitter,
    pub(crate) to_mta: Splitter,
    pub(crate) text: Vec<u8>,
}

impl TracePrinter {
    ghost use Rattle.milter_trace.specs.PrinterState.{HasUnfinishedStreams, printer_state};

    /// Before the first line.
    pub(crate) fn new(alloc: Global, form: TraceForm) -> TracePrinter
        ensures unfinished { HasUnfinishedStreams result }
        ensures state { printer_state result ≡ initial_state form }
        ensures text { result.text.items ≡ [] }
    {
        TracePrinter {
            alloc,
            form,
            lines: 0,
            to_filter: Splitter::new(alloc),
            to_mta: Splitter::new(alloc),
            text: Vec::new(alloc),
        }
    }

    /// Appends what the next line prints. It has these bytes before its LF, or before the end of the input.
    pub(crate) fn print_line(&mut self, bytes: &[u8], ended: bool) -> Result<(), TraceFault>
        requires unfinished { HasUnfinishedStreams self.old }
        requires few { self.old.lines + 1 < 2 ^ 64 }
        ensures appends { AppendsTrace (next_trace (printer_state self.old)
            (parsed_line (record { bytes = bytes.now; ended = ended })))
            self.old.text.items self.new.text.items result }
        ensures state { OnOk result (printer_state self.new ≡ next_state (printer_state self.old)
            (parsed_line (record { bytes = bytes.now; ended = ended }))) }
        ensures unfinished { OnOk result (HasUnfinishedStreams self.new) }
    {
        let number = self.lines + 1;
        match parse_line(bytes, ended) {
            UndecodedLine::Skipped => {}
            UndecodedLine::Bad => return Err(TraceFault::BadLine(number)),
            UndecodedLine::Digits(direction, digits) => {
                let bytes = decode_digits(self.alloc, digits, number)?;
                self.print_bytes(number, direction, bytes.as_slice())?;
            }
        }
        self.lines = number;
        Ok(())
    }

    /// Appends the packets that become whole with these bytes of a direction.
    pub(crate) fn print_bytes(
        &mut self,
        number: u64,
        direction: Direction,
        bytes: &[u8],
    ) -> Result<(), TraceFault>
        requires { HasUnfinishedStreams self.old }
        ensures appends { AppendsTrace (division_trace self.old.form number direction (divide (unread_in direction
            (printer_state self.old) ++ bytes.now)))
            self.old.text.items self.new.text.items result }
        ensures state { OnOk result (printer_state self.new ≡ with_unread (printer_state self.old) direction
            (divide (unread_in direction (printer_state self.old) ++ bytes.now)).rest) }
        ensures unfinished { OnOk result (HasUnfinishedStreams self.new) }
    {
        let alloc = self.alloc;
        let form = self.form;
        match direction {
            Direction::ToFilter => {
                print_packets(
                    alloc,
                    form,
                    number,
                    direction,
                    &mut self.to_filter,
                    bytes,
                    &mut self.text,
                )
            }
            Direction::ToMta => {
                print_packets(
                    alloc,
                    form,
                    number,
                    direction,
                    &mut self.to_mta,
                    bytes,
                    &mut self.text,
                )
            }
        }
    }

    /// The fault of an input that ends here, where a packet isn't whole.
    pub(crate) fn end(&self) -> Result<(), TraceFault>
        ensures { AppendsTrace (end_trace (length self.now.to_filter) (length self.now.to_mta)) [] [] result }
    {
        let to_filter = self.to_filter.unread();
        let to_mta = self.to_mta.unread();
        if to_filter == 0 && to_mta == 0 {
            Ok(())
        } else {
            Err(TraceFault::Truncated { to_filter, to_mta })
        }
    }
}

/// The bytes that the digits of the line with this number encode; `BadLine` where they encode none.
pub fn decode_digits(alloc: Global, digits: &[u8], line: u64) -> Result<Vec<u8>, TraceFault>
    ensures { DecodesDigits (decode_of digits.now) line result }
{
    match hex::decode(alloc, digits) {
        Ok(bytes) => Ok(bytes),
        Err(FromHexError::OutOfMemory) => Err(TraceFault::NoMemory),
        Err(_) => Err(TraceFault::BadLine(line)),
    }
}
