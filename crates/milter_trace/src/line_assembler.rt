//! The lines of a trace, from its bytes in any pieces.

ghost use Rattle.std.specs.Prelude.{◌≡◌, ◌≤◌, ◌<◌, ◌+◌, ◌++◌, ◌^◌, ◌⊎◌, List, ℕ, [], true, Err, OnOk, OnErr, length};
ghost use Rattle.milter_text.specs.Lines.{lines_of};
ghost use Rattle.milter_trace.specs.PrinterState.{HasUnfinishedStreams, printer_state};
ghost use Rattle.milter_trace.specs.ParsedLine.{parsed_line};
ghost use Rattle.milter_trace.specs.TraceState.{ContinuesTrace, AppendsTrace, next_state, next_trace, trace_to_come, trace_from};

use crate::fault::TraceFault;
use crate::form::TraceForm;
use crate::trace_line::{LINE_MAX, line_end};
use crate::trace_printer::TracePrinter;
use std::alloc::Global;

/// Assembles the lines of a trace from pieces of its input: the line that has begun, and the printer of whole lines.
#[derive(Drop)]
pub(crate) struct LineAssembler {
    pub(crate) begun: Vec<u8>,
    pub(crate) printer: TracePrinter,
}

impl LineAssembler {
    ghost use Rattle.milter_trace.specs.AssemblerState.{IsInitial, IsBetweenPieces};

    /// Before the first byte.
    pub(crate) fn new(alloc: Global, form: TraceForm) -> LineAssembler
        ensures { IsInitial form result }
    {
        LineAssembler {
            begun: Vec::new(alloc),
            printer: TracePrinter::new(alloc, form),
        }
    }

    /// Prints the lines that end in this piece. After a fault the text before it was appended.
    pub(crate) fn feed(&mut self, piece: &[u8]) -> Result<(), TraceFault>
        requires between_pieces { IsBetweenPieces self.old }
        requires few { self.old.printer.lines + length piece.now + 1 < 2 ^ 64 }
        ensures feeds { (more : List ℕ) → ContinuesTrace
            (trace_to_come self.old.printer.text.items (printer_state self.old.printer) self.old.begun.items
            (piece.now ++ more))
            (trace_to_come self.new.printer.text.items (printer_state self.new.printer) self.new.begun.items more)
            self.new.printer.text.items result }
        ensures between_pieces { OnOk result (IsBetweenPieces self.new) }
        ensures few { OnOk result (self.new.printer.lines ≤ self.old.printer.lines + length piece.now) }
    {
        let mut rest = piece;
        while let Some(end) = line_end(rest) {
            self.end_line(&rest[..end])?;
            rest = &rest[end + 1..];
        }
        self.begin_line(rest)
    }

    /// Prints the last line, if it has no LF. The fault may be a packet that isn't whole.
    pub(crate) fn print_last(&mut self) -> Result<(), TraceFault>
        requires between_pieces { IsBetweenPieces self.old }
        requires few { self.old.printer.lines + 1 < 2 ^ 64 }
        ensures { AppendsTrace (trace_from (printer_state self.old.printer) (lines_of self.old.begun.items))
            self.old.printer.text.items self.new.printer.text.items result }
    {
        let last = self.begun.as_slice();
        if last.is_empty() {
            return self.printer.end();
        }
        self.printer.print_line(last, false)?;
        self.printer.end()
    }

    /// The text that isn't written yet.
    pub(crate) fn text(&self) -> &[u8]
        ensures { result.now ≡ self.now.printer.text.items }
    {
        self.printer.text.as_slice()
    }

    /// The text was written.
    pub(crate) fn clear_text(&mut self)
        ensures text { self.new.printer.text.items ≡ [] }
        ensures begun { self.new.begun.items ≡ self.old.begun.items }
        ensures state { printer_state self.new.printer ≡ printer_state self.old.printer }
    {
        self.printer.text.clear();
    }

    /// Prints the line that ends after these bytes.
    fn end_line(&mut self, bytes: &[u8]) -> Result<(), TraceFault>
        requires unfinished { HasUnfinishedStreams self.old.printer }
        requires few { self.old.printer.lines + 1 < 2 ^ 64 }
        ensures appends { AppendsTrace (next_trace (printer_state self.old.printer)
            (parsed_line (record { bytes = self.old.begun.items ++ bytes.now; ended = true })))
            self.old.printer.text.items self.new.printer.text.items result }
        ensures state { OnOk result (printer_state self.new.printer ≡ next_state (printer_state self.old.printer)
            (parsed_line (record { bytes = self.old.begun.items ++ bytes.now; ended = true }))) }
        ensures unfinished { OnOk result (HasUnfinishedStreams self.new.printer) }
        ensures begun { OnOk result (self.new.begun.items ≡ []) }
    {
        if self.begun.is_empty() {
            return self.printer.print_line(bytes, true);
        }
        self.begun.extend_from_slice(bytes)?;
        self.printer.print_line(self.begun.as_slice(), true)?;
        self.begun.clear();
        Ok(())
    }

    /// Keeps the bytes of a line that doesn't end yet, unless it is too long.
    fn begin_line(&mut self, bytes: &[u8]) -> Result<(), TraceFault>
        requires { self.old.printer.lines + 1 < 2 ^ 64 }
        ensures ok { OnOk result (self.new.begun.items ≡ self.old.begun.items ++ bytes.now) }
        ensures short { OnOk result (length self.new.begun.items ≤ LINE_MAX) }
        ensures err { OnErr result ((result ≡ Err TraceFault.NoMemory)
            ⊎ ((result ≡ Err (TraceFault.BadLine (self.old.printer.lines + 1)))
            × (LINE_MAX < length (self.old.begun.items ++ bytes.now)))) }
        ensures printer { self.new.printer ≡ self.old.printer }
    {
        self.begun.extend_from_slice(bytes)?;
        if self.begun.len() > LINE_MAX {
            return Err(TraceFault::BadLine(self.printer.lines + 1));
        }
        Ok(())
    }
}
