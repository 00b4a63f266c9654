//! The subcommand `trace`: from the lines of a trace to a line for each packet.

ghost use Rattle.std.specs.Prelude.{◌≡◌, ◌≢◌, ◌≤◌, ◌<◌, ◌+◌, ◌++◌, ◌^◌, List, ℕ, [], None, Some, length, IfErr, OnOk, OnErr, IsErrOf, IsTrue, ◌↔◌};
ghost use Rattle.std.specs.Io.KnownBytes.{Appends, IsAtEnd};
ghost use Rattle.milter_text.specs.Lines.{lines_of};
ghost use Rattle.milter_text.specs.WrittenText.{WritesPrefix};
ghost use Rattle.milter_trace.specs.PrinterState.{printer_state};
ghost use Rattle.milter_trace.specs.declared.trace_line.TheConstants.{LINE_MAX};
ghost use Rattle.milter_trace.specs.TraceRun.{HasBytes, read_max, WritesPrefixIn, WritesPrefixOf, WritesTraceIn, WritesTraceOf};
ghost use Rattle.milter_trace.specs.AssemblerState.{IsInitial, IsBetweenPieces};
ghost use Rattle.milter_trace.specs.TraceState.{trace_to_come, trace_from};
ghost use Rattle.milter_trace.specs.TraceOutput.{EndsTrace, EndsWithFault, IsInputFault};

use crate::fault::TraceFault;
use crate::form::TraceForm;
use crate::line_assembler::LineAssembler;
use milter_text::write_text;
use milter_wire::{READ_LEN_MAX, read_buffer};
use std::alloc::Global;
use std::io::{Read, Write};

/// The reads after which a trace gives up.
const READ_MAX: u64 = 1_073_741_824;

/// The numbers that the definitions name: the most bytes of a line before its LF, and the most reads of a trace.
pub fn trace_limits()
    ensures line { LINE_MAX ≡ 262144 }
    ensures reads { READ_MAX ≡ read_max }
{}

/// Reads a trace to its end, and writes a line for each packet as it becomes whole.
///
/// A line of the input is `> ` or `< ` and then an even number of hexadecimal digits. Each direction is one stream,
/// which the lines cut anywhere. Blank lines, and lines whose first byte that is no blank is `#`, are skipped. A line
/// has at most 262,144 bytes before its LF. Memory is bounded by the longest line and one packet of each direction.
///
/// After `BadLine`, `Packet` and `Truncated` the text up to the fault was written, after any other fault a prefix of
/// the text. A read or write that fails, also one that is interrupted, and a write that takes nothing, is a fault.
pub fn trace_run<R: Read, W: Write>(
    alloc: Global,
    reader: &mut R,
    writer: &mut W,
) -> Result<(), TraceFault>
    // The text of the input was written, and nothing else.
    ensures done { OnOk result (WritesTraceOf None (R.remaining reader.old)
        (W.contents writer.old) (W.contents writer.new)) }
    ensures unread { OnOk result (IsAtEnd (R.remaining reader.new)) }
    // Which fault of the input it is, and the text up to it.
    ensures fault { IfErr result (λ e. IsInputFault e →
        WritesTraceOf (Some e) (R.remaining reader.old) (W.contents writer.old) (W.contents writer.new)) }
    ensures begun { OnErr result (WritesPrefixOf (R.remaining reader.old)
        (W.contents writer.old) (W.contents writer.new)) }
    // The input of a trace that gives up is that long. How many reads there were is not stated.
    ensures long_input { IsErrOf result TraceFault.TurnLimit → HasBytes read_max (R.remaining reader.old) }
{
    trace_run_as(alloc, TraceForm::plain(), reader, writer)
}

/// The same in a form: `form` says what the lines have beside that.
pub fn trace_run_as<R: Read, W: Write>(
    alloc: Global,
    form: TraceForm,
    reader: &mut R,
    writer: &mut W,
) -> Result<(), TraceFault>
    // The text of the input was written, and nothing else.
    ensures done { OnOk result (WritesTraceIn form None (R.remaining reader.old)
        (W.contents writer.old) (W.contents writer.new)) }
    ensures unread { OnOk result (IsAtEnd (R.remaining reader.new)) }
    // Which fault of the input it is, and the text up to it.
    ensures fault { IfErr result (λ e. IsInputFault e →
        WritesTraceIn form (Some e) (R.remaining reader.old) (W.contents writer.old) (W.contents writer.new)) }
    ensures begun { OnErr result (WritesPrefixIn form (R.remaining reader.old)
        (W.contents writer.old) (W.contents writer.new)) }
    // The input of a trace that gives up is that long. How many reads there were is not stated.
    ensures long_input { IsErrOf result TraceFault.TurnLimit → HasBytes read_max (R.remaining reader.old) }
{
    let mut room = read_buffer(alloc)?;
    let mut assembler = LineAssembler::new(alloc, form);
    run(&mut assembler, &mut room, reader, writer)
}

fn run<R: Read, W: Write>(
    assembler: &mut LineAssembler,
    room: &mut [u8],
    reader: &mut R,
    writer: &mut W,
) -> Result<(), TraceFault>
    requires initial { IsInitial assembler.old.printer.form assembler.old }
    requires room { length room.old ≡ READ_LEN_MAX }
    ensures done { OnOk result (WritesTraceIn assembler.old.printer.form None (R.remaining reader.old)
        (W.contents writer.old) (W.contents writer.new)) }
    ensures unread { OnOk result (IsAtEnd (R.remaining reader.new)) }
    ensures fault { IfErr result (λ e. IsInputFault e →
        WritesTraceIn assembler.old.printer.form (Some e) (R.remaining reader.old)
        (W.contents writer.old) (W.contents writer.new)) }
    ensures begun { OnErr result (WritesPrefixIn assembler.old.printer.form (R.remaining reader.old)
        (W.contents writer.old) (W.contents writer.new)) }
    ensures long_input { IsErrOf result TraceFault.TurnLimit → HasBytes read_max (R.remaining reader.old) }
{
    for _turn in 0..READ_MAX {
        let Ok(count) = reader.read(room) else {
            return Err(TraceFault::ReadFault);
        };
        if count == 0 {
            return print_end(assembler, writer);
        }
        print_piece(assembler, &room[..count], writer)?;
    }
    Err(TraceFault::TurnLimit)
}

/// Writes what the lines print that end in this piece.
fn print_piece<W: Write>(
    assembler: &mut LineAssembler,
    piece: &[u8],
    writer: &mut W,
) -> Result<(), TraceFault>
    requires between_pieces { IsBetweenPieces assembler.old }
    requires written { assembler.old.printer.text.items ≡ [] }
    requires few { assembler.old.printer.lines + length piece.now + 1 < 2 ^ 64 }
    ensures goes_on { OnOk result ((text : List ℕ) × Appends (W.contents writer.old) (W.contents writer.new) text
        × ((more : List ℕ) → trace_to_come text (printer_state assembler.new.printer) assembler.new.begun.items more
        ≡ trace_to_come [] (printer_state assembler.old.printer) assembler.old.begun.items (piece.now ++ more))) }
    ensures between_pieces { OnOk result (IsBetweenPieces assembler.new) }
    ensures written { OnOk result (assembler.new.printer.text.items ≡ []) }
    ensures few { OnOk result (assembler.new.printer.lines ≤ assembler.old.printer.lines + length piece.now) }
    ensures no_limit { ¬ IsErrOf result TraceFault.TurnLimit }
    ensures stops { IfErr result (λ e. (more : List ℕ) →
        EndsWithFault (trace_to_come [] (printer_state assembler.old.printer) assembler.old.begun.items (piece.now
        ++ more)) (W.contents writer.old) (W.contents writer.new) e) }
{
    let outcome = assembler.feed(piece);
    if is_memory(&outcome) {
        return outcome;
    }
    write_output(writer, assembler.text())?;
    assembler.clear_text();
    outcome
}

/// Writes what the end of the input prints.
fn print_end<W: Write>(assembler: &mut LineAssembler, writer: &mut W) -> Result<(), TraceFault>
    requires between_pieces { IsBetweenPieces assembler.old }
    requires written { assembler.old.printer.text.items ≡ [] }
    requires few { assembler.old.printer.lines + 1 < 2 ^ 64 }
    ensures no_limit { ¬ IsErrOf result TraceFault.TurnLimit }
    ensures ends { EndsTrace (trace_from (printer_state assembler.old.printer) (lines_of assembler.old.begun.items))
        (W.contents writer.old) (W.contents writer.new) result }
{
    let outcome = assembler.print_last();
    if is_memory(&outcome) {
        return outcome;
    }
    write_output(writer, assembler.text())?;
    outcome
}

/// Whether memory was refused: the text may then end within a line.
fn is_memory(outcome: &Result<(), TraceFault>) -> bool
    ensures { IsTrue result ↔ IsErrOf outcome.now TraceFault.NoMemory }
{
    match outcome {
        Err(TraceFault::NoMemory) => true,
        _ => false,
    }
}

/// Writes a text, in as many writes as it takes.
fn write_output<W: Write>(writer: &mut W, text: &[u8]) -> Result<(), TraceFault>
    ensures ok { OnOk result (Appends (W.contents writer.old) (W.contents writer.new) text.now) }
    ensures err { IfErr result (λ e. (e ≡ TraceFault.WriteFault)
        × WritesPrefix text.now (W.contents writer.old) (W.contents writer.new)) }
{
    match write_text(writer, text) {
        Ok(()) => Ok(()),
        Err(_) => Err(TraceFault::WriteFault),
    }
}
