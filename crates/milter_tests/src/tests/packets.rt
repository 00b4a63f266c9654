//! Commands and replies: decoded, copied and encoded. A test that is out of memory ends with that, and nothing is left
//! of what a call appended: `tests/test_refused_growth.py` runs these tests with each allocation refused in turn.

mod command_packets;
mod reply_packets;

use command_packets::COMMAND_PACKETS;
use milter_wire::{Command, NoMemory, Reply, WireFault};
use reply_packets::REPLY_PACKETS;
use std::alloc::Global;

/// Whether the output is a byte that was there before, and then the packet.
fn is_appended(out: &[u8], packet: &[u8]) -> bool {
    out.starts_with(&[0xaa]) && out.get(1..) == Some(packet)
}

/// Whether both are so; none where memory was refused before that was known.
fn are_both(first: Option<bool>, second: Option<bool>) -> Option<bool> {
    Some(first? && second?)
}

/// Whether the command is appended as this packet, or none and nothing of it, where memory is refused.
fn is_command_encoded(alloc: Global, command: &Command, packet: &[u8]) -> Option<bool> {
    let mut out = Vec::new(alloc);
    if out.push(0xaa).is_err() {
        return None;
    }
    if !command.fits() {
        return Some(false);
    }
    match command.encode(alloc, &mut out) {
        Ok(()) => Some(is_appended(&out, packet)),
        Err(NoMemory) if is_appended(&out, &[]) => None,
        Err(NoMemory) => Some(false),
    }
}

/// Whether a copy of the command is equal to it, or none, where memory is refused.
fn is_command_copied(command: &Command) -> Option<bool> {
    match command.clone() {
        Ok(copy) => Some(copy == *command),
        Err(_) => None,
    }
}

/// Whether the packet has a command whose packet it is, or none, where memory is refused.
fn is_command(alloc: Global, packet: &[u8]) -> Option<bool> {
    if packet.len() < 5 || packet.len() > 100 {
        return Some(false);
    }
    match Command::decode(alloc, packet[4], &packet[5..]) {
        Ok(command) => are_both(
            is_command_copied(&command),
            is_command_encoded(alloc, &command, packet),
        ),
        Err(WireFault::NoMemory) => None,
        Err(_) => Some(false),
    }
}

#[test]
fn commands_are_encoded_as_they_were(rt: HostRuntime) -> Result<(), NoMemory> {
    for packet in COMMAND_PACKETS {
        let right = is_command(rt.alloc(), packet).ok_or(NoMemory)?;
        assert!(rt; right);
    }
    Ok(())
}

/// Whether the reply is appended as this packet, or none and nothing of it, where memory is refused.
fn is_reply_encoded(alloc: Global, reply: &Reply, packet: &[u8]) -> Option<bool> {
    let mut out = Vec::new(alloc);
    if out.push(0xaa).is_err() {
        return None;
    }
    if !reply.fits() {
        return Some(false);
    }
    match reply.encode(alloc, &mut out) {
        Ok(()) => Some(is_appended(&out, packet)),
        Err(NoMemory) if is_appended(&out, &[]) => None,
        Err(NoMemory) => Some(false),
    }
}

/// Whether a copy of the reply is equal to it, or none, where memory is refused.
fn is_reply_copied(reply: &Reply) -> Option<bool> {
    match reply.clone() {
        Ok(copy) => Some(copy == *reply),
        Err(_) => None,
    }
}

/// Whether the packet has a reply whose packet it is, or none, where memory is refused.
fn is_reply(alloc: Global, packet: &[u8]) -> Option<bool> {
    if packet.len() < 5 || packet.len() > 100 {
        return Some(false);
    }
    match Reply::decode(alloc, packet[4], &packet[5..]) {
        Ok(reply) => are_both(
            is_reply_copied(&reply),
            is_reply_encoded(alloc, &reply, packet),
        ),
        Err(WireFault::NoMemory) => None,
        Err(_) => Some(false),
    }
}

#[test]
fn replies_are_encoded_as_they_were(rt: HostRuntime) -> Result<(), NoMemory> {
    for packet in REPLY_PACKETS {
        let right = is_reply(rt.alloc(), packet).ok_or(NoMemory)?;
        assert!(rt; right);
    }
    Ok(())
}
