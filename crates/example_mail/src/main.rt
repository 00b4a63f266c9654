//! The example of docs/RATTLE.md: a stream is split into packets, a command is decoded, and an edit is applied.
#![tactic(auto)]

use anyhow::{Context, bail};
use milter_mail::{Edit, Message, apply, write_message};
use milter_wire::{Command, Path, Reply, Splitter};
use std::alloc::Global;
use std::io;

/// What a mail server sends of a sender, as it came in two reads.
const PIECES: [&[u8]; 2] = [b"\0\0\0\x13M<ada@exam", b"ple.org>\0"];

/// The sender in these pieces of a stream, where one came.
fn sender_in(alloc: Global, pieces: &[&[u8]]) -> anyhow::Result<Option<Path>> {
    let mut splitter = Splitter::new(alloc);
    let mut sender = None;
    for piece in pieces {
        if let Some(found) = sender_of(alloc, &mut splitter, piece)? {
            sender = Some(found);
        }
    }
    Ok(sender)
}

/// The sender in the packet that becomes whole in this piece, where there is one.
fn sender_of(alloc: Global, splitter: &mut Splitter, piece: &[u8]) -> anyhow::Result<Option<Path>> {
    let mut rest = piece;
    while !rest.is_empty() {
        let taken = splitter.feed(rest)?;
        if taken == 0 {
            break;
        }
        rest = &rest[taken..];
        let Some(packet) = splitter.next()? else {
            continue;
        };
        if let Command::Mail(path) = Command::decode(alloc, packet.code, packet.payload)? {
            return Ok(Some(path));
        }
    }
    Ok(None)
}

fn main(rt: HostRuntime) -> anyhow::Result<()> {
    let alloc = rt.alloc();
    let sender = sender_in(alloc, &PIECES)?.context("no sender came")?;
    let message = Message::new(sender, Vec::new(alloc), Vec::new(alloc), Vec::new(alloc)).context(
        "a part is too long for a packet",
    )?;

    let reply = Reply::decode(alloc, b'h', b"X-Seen\0yes\0")?;
    let Ok(edit) = Edit::from_reply(reply) else {
        bail!("the reply asks for no edit");
    };
    let edited = apply(alloc, &message, &[edit], true)?;
    write_message(alloc, &mut io::writer(&rt), &edited)?;
    Ok(())
}
