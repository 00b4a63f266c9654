//! Edits of a stream of packets, applied to a message. The input is a session file of one message, a NUL, and a stream
//! of the reply packets that ask for the edits.
//!
//! The first word is what is printed: `text` the text of the message after them, and `count` how many header fields and
//! recipients it then has. For `texts` each line of the input is such an input in hexadecimal digits, and the texts are
//! printed one after the other. A second word says that leading spaces are negotiated.

ghost use Rattle.std.specs.Prelude.{◌≤◌, All, IfOk, length};
ghost use Rattle.milter_wire.specs.Reply.{Fits};
ghost use Rattle.milter_message.specs.EditReplies.{reply_of};

use crate::input::text_in;
use crate::printed::print_message;
use anyhow::{Context, bail};
use milter_mail::{Edit, Held, Session, apply, edits_of_replies};
use milter_mail_file::read_session;
use milter_wire::{PAYLOAD_MAX, Packet, Reply, Splitter};
use std::alloc::Global;

/// The edit that a packet asks for.
pub fn edit_of(alloc: Global, packet: Packet<'_>) -> anyhow::Result<Edit>
    requires { length packet.payload.now ≤ PAYLOAD_MAX }
    ensures { IfOk result (λ edit. Fits (reply_of edit)) }
{
    edits_of_replies();
    let reply = Reply::decode(alloc, packet.code, packet.payload)?;
    match Edit::from_reply(reply) {
        Ok(edit) => Ok(edit),
        Err(_) => bail!("a packet asks for no edit"),
    }
}

/// The edits that the packets of a stream ask for.
fn edits_in(alloc: Global, stream: &[u8]) -> anyhow::Result<Vec<Edit>>
    ensures { IfOk result (λ edits. All (λ edit. Fits (reply_of edit)) edits.items) }
{
    let mut splitter = Splitter::new(alloc);
    let mut edits = Vec::new(alloc);
    let mut rest = stream;
    while !rest.is_empty() {
        let taken = splitter.feed(rest)?;
        if taken == 0 {
            break;
        }
        rest = &rest[taken..];
        let Some(packet) = splitter.next()? else {
            continue;
        };
        edits.push(edit_of(alloc, packet)?)?;
    }
    splitter.at_end()?;
    Ok(edits)
}

/// The one message of a session after the edits of a stream.
fn held_after(
    alloc: Global,
    session: &Session,
    stream: &[u8],
    leading_space: bool,
) -> anyhow::Result<Held> {
    let [message] = session.messages() else {
        bail!("the session is to have one message");
    };
    let edits = edits_in(alloc, stream)?;
    Ok(apply(alloc, message, &edits, leading_space)?)
}

/// The session file and the stream after it: a NUL is between them.
fn parts_of(input: &[u8]) -> Option<(&[u8], &[u8])> {
    let end = input.iter().position(|byte| *byte == 0)?;
    Some((&input[..end], &input[end + 1..]))
}

/// The same for a session file and the stream after it.
fn held_in(alloc: Global, input: &[u8], leading_space: bool) -> anyhow::Result<Held> {
    let (file, stream) = parts_of(input).context("a NUL is to follow the session file")?;
    let session = read_session(alloc, file)?;
    held_after(alloc, &session, stream, leading_space)
}

/// Prints the text of the message after its edits.
fn print_text(rt: &HostRuntime, input: &[u8], leading_space: bool) -> anyhow::Result<()> {
    let held = held_in(rt.alloc(), input, leading_space)?;
    print_message(rt, &held)
}

/// The same of the input that these hexadecimal digits are.
fn print_text_in(rt: &HostRuntime, digits: &str, leading_space: bool) -> anyhow::Result<()> {
    let input = hex::decode(rt.alloc(), digits)?;
    print_text(rt, &input, leading_space)
}

/// The same of each line.
fn print_texts(rt: &HostRuntime, lines: &str, leading_space: bool) -> anyhow::Result<()> {
    for line in lines.lines() {
        print_text_in(rt, line, leading_space)?;
    }
    Ok(())
}

/// Prints how much the message after its edits has.
fn print_count(rt: &HostRuntime, input: &[u8], leading_space: bool) -> anyhow::Result<()> {
    let held = held_in(rt.alloc(), input, leading_space)?;
    let headers = held.message.headers().len();
    let recipients = held.message.recipients().len();
    println!(rt; "{headers} header fields, {recipients} recipients")?;
    Ok(())
}

/// Prints what the words ask for of the input's messages after their edits.
pub fn print_edited(rt: &HostRuntime, words: &[String], input: &[u8]) -> anyhow::Result<()> {
    let [printed, more @ ..] = words else {
        bail!("usage: milter_tests_driver edits text|count|texts [leading_space]");
    };
    let leading_space = !more.is_empty();
    match printed.as_str() {
        "text" => print_text(rt, input, leading_space),
        "texts" => print_texts(rt, text_in(input)?, leading_space),
        _ => print_count(rt, input, leading_space),
    }
}
