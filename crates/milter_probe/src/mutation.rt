//! Packets that are no packets of the protocol.

use milter_fields::put_number;
use milter_wire::codes::{SMFIC_ABORT, SMFIC_QUIT_NC};
use milter_wire::{NoMemory, Packet};
use std::alloc::Global;

/// The least length that is too long for a packet.
const TOO_LONG: u32 = 65_537;

/// Codes that no command has.
const UNKNOWN: [u8; 8] = *b"FGIJPXYZ";

/// What is wrong with a packet.
#[derive(Clone, Copy, Debug, PartialEq, Eq)]
pub(crate) enum Mutation {
    /// It states the length 0.
    ZeroLength,
    /// It states a length that no packet has.
    TooLong,
    /// It states a length that is less than its own.
    TooShort,
    /// No command has its code.
    UnknownCommand,
    /// The zero byte that its payload ends with is missing.
    NoZeroByte,
    /// Its payload is cut.
    Cut,
}

impl Mutation {
    /// All of them.
    pub(crate) const ALL: [Mutation; 6] = [
        Mutation::ZeroLength,
        Mutation::TooLong,
        Mutation::TooShort,
        Mutation::UnknownCommand,
        Mutation::NoZeroByte,
        Mutation::Cut,
    ];
}

/// A packet that is sent otherwise.
#[derive(Clone, Copy)]
pub(crate) struct Mutant<'a> {
    /// The length that it states.
    length: u32,
    /// Its code.
    code: u8,
    /// What follows the code.
    payload: &'a [u8],
}

/// The length of the code and a payload.
fn length_of(payload: &[u8]) -> u32 {
    match u32::try_from(payload.len()) {
        Ok(len) => len.saturating_add(1),
        Err(_) => u32::MAX,
    }
}

/// The first bytes of a payload, by a word, and not all; none where the payload is empty.
fn prefix<'a>(payload: &'a [u8], word: u32) -> Option<&'a [u8]> {
    if payload.is_empty() {
        return None;
    }
    let len = word as usize % payload.len();
    Some(&payload[..len])
}

/// The packet that states the length of its payload.
fn stated<'a>(code: u8, payload: &'a [u8]) -> Mutant<'a> {
    Mutant {
        length: length_of(payload),
        code,
        payload,
    }
}

/// The packet with another length.
fn with_length<'a>(packet: &Packet<'a>, length: u32) -> Mutant<'a> {
    Mutant {
        length,
        code: packet.code,
        payload: packet.payload,
    }
}

/// The packet with the length that a cut payload would have.
fn too_short<'a>(packet: &Packet<'a>, word: u32) -> Option<Mutant<'a>> {
    let first = prefix(packet.payload, word)?;
    Some(with_length(packet, length_of(first)))
}

/// The packet with its payload cut.
fn cut<'a>(packet: &Packet<'a>, word: u32) -> Option<Mutant<'a>> {
    let first = prefix(packet.payload, word)?;
    Some(stated(packet.code, first))
}

/// The packet without the zero byte that its payload ends with.
fn without_zero_byte<'a>(packet: &Packet<'a>) -> Option<Mutant<'a>> {
    match packet.payload {
        [payload @ .., 0] => Some(stated(packet.code, payload)),
        _ => None,
    }
}

/// The packet as it is sent otherwise, where that can be; a word chooses lengths, codes and cuts.
pub(crate) fn mutant_of<'a>(
    mutation: Mutation,
    packet: &Packet<'a>,
    word: u32,
) -> Option<Mutant<'a>> {
    match mutation {
        Mutation::ZeroLength => Some(with_length(packet, 0)),
        Mutation::TooLong => Some(with_length(packet, word.max(TOO_LONG))),
        Mutation::TooShort => too_short(packet, word),
        Mutation::UnknownCommand => {
            let code = UNKNOWN[word as usize % UNKNOWN.len()];
            Some(stated(code, packet.payload))
        }
        Mutation::NoZeroByte => without_zero_byte(packet),
        Mutation::Cut => cut(packet, word),
    }
}

impl<'a> Mutant<'a> {
    /// Its bytes.
    pub(crate) fn bytes(self, alloc: Global) -> Result<Vec<u8>, NoMemory> {
        let mut bytes = Vec::new(alloc);
        put_number(&mut bytes, self.length)?;
        bytes.push(self.code)?;
        bytes.extend_from_slice(self.payload)?;
        Ok(bytes)
    }
}

/// The packet of an abort.
pub(crate) fn abort_packet(alloc: Global) -> Result<Vec<u8>, NoMemory> {
    stated(SMFIC_ABORT, &[]).bytes(alloc)
}

/// The packet by which another client follows.
pub(crate) fn next_client_packet(alloc: Global) -> Result<Vec<u8>, NoMemory> {
    stated(SMFIC_QUIT_NC, &[]).bytes(alloc)
}
