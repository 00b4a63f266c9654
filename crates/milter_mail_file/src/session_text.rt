//! Sessions written as session files.

ghost use Rattle.std.specs.Prelude.{OnErr, OnOk};
ghost use Rattle.std.specs.Io.KnownBytes.{Appends};
ghost use Rattle.std.specs.List.{flat_map};
ghost use Rattle.milter_text.specs.TextWriter.{Puts};
ghost use Rattle.milter_text.specs.WrittenText.{WritesPrefix};
ghost use Rattle.milter_mail_file.specs.SessionText.{all_macro_lines, client_line, endpoint_line, macro_line, macro_lines};
ghost use Rattle.milter_mail_file.specs.SessionText.{message_text, opening_text, session_text};

use itoa::Buffer;
use milter_mail::{Macros, Message, Session, put_line, put_message, put_text};
use milter_text::{TextFault, TextWriter};
use milter_wire::{Client, MacroStage, Origin, Pair, Text};
use std::alloc::Global;
use std::io::Write;
use std::slice;

/// Writes the session as a session file in canonical form: the lines `client` and `helo`; `macro` for each macro, stage
/// by stage in the order connect, helo, mail, rcpt, data, eoh, eom; and for each message `message`, `sender`, each
/// `recipient`, each `header`, `body` with the whole body as one text, and `end`. Each line ends with LF, one blank
/// is before each word but the first, and texts are in quotes as [`quote`](milter_text::quote) writes them. The time is
/// linear in the text. Memory is bounded by a small multiple of 65,536 bytes, and no message is copied.
///
/// The error is `NoMemory` where memory is refused, and `Write` where a write fails, also one that is interrupted, or
/// takes nothing. After either fault a prefix of the text is written, and nothing else.
pub fn write_session<W: Write>(
    alloc: Global,
    writer: &mut W,
    session: &Session,
) -> Result<(), TextFault>
    ensures done { OnOk result (Appends (W.contents writer.old) (W.contents writer.new) (session_text session.now)) }
    ensures begun { OnErr result
        (WritesPrefix (session_text session.now) (W.contents writer.old) (W.contents writer.new)) }
{
    let mut buffer = Vec::new(alloc);
    let mut output = TextWriter::new(writer, &mut buffer);
    put_session(&mut output, session)?;
    output.flush()
}

/// Puts the lines of a session.
fn put_session<W: Write>(output: &mut TextWriter<'_, W>, session: &Session) -> Result<(), TextFault>
    ensures { Puts W.contents (session_text session.now) output.old output.new result }
{
    put_opening(output, session)?;
    put_messages(output, session.messages())
}

/// Puts the lines of each message.
fn put_messages<W: Write>(
    output: &mut TextWriter<'_, W>,
    messages: &[Message],
) -> Result<(), TextFault>
    ensures { Puts W.contents (flat_map message_text messages.now) output.old output.new result }
{
    for message in messages {
        put_file_message(output, message)?;
    }
    Ok(())
}

/// Puts the lines that a message has in a session file.
fn put_file_message<W: Write>(
    output: &mut TextWriter<'_, W>,
    message: &Message,
) -> Result<(), TextFault>
    ensures { Puts W.contents (message_text message.now) output.old output.new result }
{
    output.put(b"message\n")?;
    put_message(output, message)
}

/// Puts the lines of the client, of its greeting and of the macros.
fn put_opening<W: Write>(output: &mut TextWriter<'_, W>, session: &Session) -> Result<(), TextFault>
    ensures { Puts W.contents (opening_text session.now) output.old output.new result }
{
    put_client(output, session.client())?;
    put_line(output, b"helo", session.helo().as_slice(), &[])?;
    put_macros(output, session.macros())
}

/// Puts the line of the client.
fn put_client<W: Write>(output: &mut TextWriter<'_, W>, client: &Client) -> Result<(), TextFault>
    ensures { Puts W.contents (client_line client.now) output.old output.new result }
{
    let host = client.host.as_slice();
    match &client.origin {
        Origin::Unknown => put_line(output, b"client U", host, &[]),
        Origin::Unix { port, address } => put_endpoint(output, b"client L", host, *port, address),
        Origin::Inet { port, address } => put_endpoint(output, b"client 4", host, *port, address),
        Origin::Inet6 { port, address } => put_endpoint(output, b"client 6", host, *port, address),
    }
}

/// Puts the line of a client with an endpoint, which begins with this start.
fn put_endpoint<W: Write>(
    output: &mut TextWriter<'_, W>,
    start: &[u8],
    host: &[u8],
    port: u16,
    address: &Text,
) -> Result<(), TextFault>
    ensures { Puts W.contents (endpoint_line start.now host.now port address.now) output.old output.new result }
{
    output.put(start)?;
    put_text(output, host)?;
    output.put(b" ")?;
    let mut digits = Buffer::new();
    let port = digits.format(u64::from(port)).as_bytes();
    put_line(output, port, address.as_slice(), &[])
}

/// Puts the lines of all macros.
fn put_macros<W: Write>(output: &mut TextWriter<'_, W>, macros: &Macros) -> Result<(), TextFault>
    ensures { Puts W.contents (all_macro_lines macros.now) output.old output.new result }
{
    for stage in &MacroStage::ALL {
        put_stage(output, stage.name(), macros.at(*stage).as_slice())?;
    }
    Ok(())
}

/// Puts the lines of a stage's macros.
fn put_stage<W: Write>(
    output: &mut TextWriter<'_, W>,
    stage: &[u8],
    pairs: &[Pair],
) -> Result<(), TextFault>
    ensures { Puts W.contents (flat_map (macro_line stage.now) pairs.now) output.old output.new result }
{
    for pair in pairs {
        put_macro(output, stage, pair)?;
    }
    Ok(())
}

/// Puts the line of a macro.
fn put_macro<W: Write>(
    output: &mut TextWriter<'_, W>,
    stage: &[u8],
    pair: &Pair,
) -> Result<(), TextFault>
    ensures { Puts W.contents (macro_line stage.now pair.now) output.old output.new result }
{
    output.put(b"macro ")?;
    put_line(
        output,
        stage,
        pair.name.as_slice(),
        slice::from_ref(&pair.value),
    )
}
