//! The packets of a filter, with their lines.

ghost use Rattle.milter_fields.specs.Packet.{IsPayload};

use crate::conversation::ReplyPacket;
use milter_trace::{Direction, put_packet};
use milter_wire::codes::SMFIR_PROGRESS;
use milter_wire::{NoMemory, Packet, Splitter, WireFault};
use std::alloc::Global;

/// A packet of a filter, with its line; none of progress. The fault is that of a packet that can't be read.
pub(crate) fn reply_of(alloc: Global, packet: &Packet<'_>) -> Result<Option<ReplyPacket>, WireFault>
    requires { IsPayload packet.now.payload.now }
{
    let mut text = Vec::new(alloc);
    put_packet(alloc, Direction::ToMta, packet, &mut text)?;
    if packet.code == SMFIR_PROGRESS {
        return Ok(None);
    }
    let payload = Vec::from_slice(alloc, packet.payload)?;
    Ok(Some(ReplyPacket {
        code: packet.code,
        payload,
        text,
    }))
}

/// Keeps the packets of a filter that become whole with these bytes, up to the first one that can't be read.
pub(crate) fn keep_replies(
    alloc: Global,
    splitter: &mut Splitter,
    bytes: &[u8],
    replies: &mut Vec<ReplyPacket>,
) -> Result<(), NoMemory> {
    let mut rest = bytes;
    loop {
        let taken = splitter.feed(rest)?;
        if taken == 0 {
            return Ok(());
        }
        rest = &rest[taken..];
        match next_reply(alloc, splitter) {
            Ok(Some(reply)) => replies.push(reply)?,
            Ok(None) => {}
            Err(WireFault::NoMemory) => return Err(NoMemory),
            Err(_) => return Ok(()),
        }
    }
}

/// The packet that is whole, unless it is progress.
fn next_reply(alloc: Global, splitter: &mut Splitter) -> Result<Option<ReplyPacket>, WireFault> {
    match splitter.next()? {
        Some(packet) => reply_of(alloc, &packet),
        None => Ok(None),
    }
}
