//! The lines of messages, as a text writer is given them.

ghost use Rattle.std.specs.Prelude.{◌∷◌, codes};
ghost use Rattle.std.specs.List.{flat_map};
ghost use Rattle.milter_mail.specs.HeldText.{content_lines, envelope_lines, header_line, line_of, message_lines, path_line, text_of, texts_of};
ghost use Rattle.milter_text.specs.TextWriter.{Puts};

use milter_message::Message;
use milter_text::{TextFault, TextWriter};
use milter_wire::{Header, Path, Text};
use std::io::Write;
use std::slice;

/// Puts the lines of a message: `sender`, the address and each parameter; `recipient`, the address and each parameter,
/// for each recipient; `header`, the name and the value, for each header field; `body` and the body; and `end`. The
/// message isn't copied. After either fault a prefix of what was put is written, and nothing else.
pub fn put_message<W: Write>(
    output: &mut TextWriter<'_, W>,
    message: &Message,
) -> Result<(), TextFault>
    ensures { Puts W.contents (message_lines message.now) output.old output.new result }
{
    put_envelope(output, message)?;
    put_content(output, message)
}

/// Puts the lines of the sender and the recipients.
fn put_envelope<W: Write>(
    output: &mut TextWriter<'_, W>,
    message: &Message,
) -> Result<(), TextFault>
    ensures { Puts W.contents (envelope_lines message.now) output.old output.new result }
{
    put_path(output, b"sender", message.sender())?;
    put_recipients(output, message.recipients())
}

/// Puts a line for each recipient.
fn put_recipients<W: Write>(
    output: &mut TextWriter<'_, W>,
    recipients: &[Path],
) -> Result<(), TextFault>
    ensures { Puts W.contents (flat_map (path_line (codes "recipient")) recipients.now)
        output.old output.new result }
{
    for recipient in recipients {
        put_path(output, b"recipient", recipient)?;
    }
    Ok(())
}

/// Puts the lines of the header fields and the body, and the last line.
fn put_content<W: Write>(output: &mut TextWriter<'_, W>, message: &Message) -> Result<(), TextFault>
    ensures { Puts W.contents (content_lines message.now) output.old output.new result }
{
    put_headers(output, message.headers())?;
    put_line(output, b"body", message.body(), &[])?;
    output.put(b"end\n")
}

/// Puts a line for each header field.
fn put_headers<W: Write>(
    output: &mut TextWriter<'_, W>,
    headers: &[Header],
) -> Result<(), TextFault>
    ensures { Puts W.contents (flat_map header_line headers.now) output.old output.new result }
{
    for header in headers {
        let value = slice::from_ref(&header.value);
        put_line(output, b"header", header.name.as_slice(), value)?;
    }
    Ok(())
}

/// Puts a line of the address and the parameters.
fn put_path<W: Write>(
    output: &mut TextWriter<'_, W>,
    keyword: &[u8],
    path: &Path,
) -> Result<(), TextFault>
    ensures { Puts W.contents (path_line keyword.now path.now) output.old output.new result }
{
    put_line(
        output,
        keyword,
        path.address.as_slice(),
        path.params.as_slice(),
    )
}

/// Puts a line: the keyword, a first text and the others, each in quotes and after a blank, and LF. After either fault
/// a prefix of what was put is written, and nothing else.
pub fn put_line<W: Write>(
    output: &mut TextWriter<'_, W>,
    keyword: &[u8],
    first: &[u8],
    others: &[Text],
) -> Result<(), TextFault>
    ensures { Puts W.contents (line_of keyword.now (first.now ∷ others.now)) output.old output.new result }
{
    output.put(keyword)?;
    put_text(output, first)?;
    put_texts(output, others)?;
    output.put(b"\n")
}

/// Puts each text in quotes, after a blank.
fn put_texts<W: Write>(output: &mut TextWriter<'_, W>, texts: &[Text]) -> Result<(), TextFault>
    ensures { Puts W.contents (texts_of texts.now) output.old output.new result }
{
    for text in texts {
        put_text(output, text.as_slice())?;
    }
    Ok(())
}

/// Puts a blank, and the text in quotes. After either fault a prefix of what was put is written, and nothing else.
pub fn put_text<W: Write>(output: &mut TextWriter<'_, W>, text: &[u8]) -> Result<(), TextFault>
    ensures { Puts W.contents (text_of text.now) output.old output.new result }
{
    output.put(b" ")?;
    output.put_quoted(text)
}
