//! Held messages as texts: a line for each part.

ghost use Rattle.std.specs.Prelude.{OnOk, OnErr};
ghost use Rattle.std.specs.Io.KnownBytes.{Appends};
ghost use Rattle.milter_mail.specs.HeldText.{held_text, reason_line};
ghost use Rattle.milter_text.specs.TextWriter.{Puts};
ghost use Rattle.milter_text.specs.WrittenText.{WritesPrefix};

use crate::message_lines::{put_line, put_message};
use milter_message::Held;
use milter_text::{TextFault, TextWriter};
use milter_wire::Text;
use std::alloc::Global;
use std::io::Write;

/// Writes a held message, a line for each part of it, each ended by LF: `quarantine` and the reason, where there is
/// one; `sender`, the address and each parameter; `recipient`, the address and each parameter, for each recipient;
/// `header`, the name and the value, for each header field; `body` and the body; and `end`. Each text comes after one
/// blank, in quotes and in its canonical form, as [`quote`](crate::quote) writes it. The time is linear in the text.
/// Memory is bounded by a small multiple of 65,536 bytes.
///
/// After either fault a prefix of the text may have been written, and nothing else. A write that fails, also one that
/// is interrupted, and a write that takes nothing, is a fault.
pub fn write_message<W: Write>(alloc: Global, writer: &mut W, held: &Held) -> Result<(), TextFault>
    ensures done { OnOk result (Appends (W.contents writer.old) (W.contents writer.new) (held_text held.now)) }
    ensures begun { OnErr result (WritesPrefix (held_text held.now) (W.contents writer.old) (W.contents writer.new)) }
{
    let mut buffer = Vec::new(alloc);
    let mut output = TextWriter::new(writer, &mut buffer);
    put_held(&mut output, held)?;
    output.flush()
}

/// Puts the lines of a held message.
fn put_held<W: Write>(output: &mut TextWriter<'_, W>, held: &Held) -> Result<(), TextFault>
    ensures { Puts W.contents (held_text held.now) output.old output.new result }
{
    put_reason(output, &held.quarantine)?;
    put_message(output, &held.message)
}

/// Puts the line of the reason, where there is one.
fn put_reason<W: Write>(
    output: &mut TextWriter<'_, W>,
    reason: &Option<Text>,
) -> Result<(), TextFault>
    ensures { Puts W.contents (reason_line reason.now) output.old output.new result }
{
    match reason {
        Some(text) => put_line(output, b"quarantine", text.as_slice(), &[]),
        None => Ok(()),
    }
}
