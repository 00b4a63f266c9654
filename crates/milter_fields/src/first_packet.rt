//! The first packet of a stream, as far as it has come.

ghost use Rattle.std.specs.Prelude.{◌≡◌, ◌≢◌, ◌<◌, ◌≤◌, ◌-◌, ◌+◌, ◌++◌, ◌↔◌, Ok, None, Some, length, min, take, IfOk, IfSome, OnErr, IsErrOf};
ghost use Rattle.milter_fields.specs.Packet.{packet, IsPayload};
ghost use Rattle.milter_fields.specs.Stream.{IsUnfinished, fault_of, length_fault};
ghost use Rattle.milter_fields.specs.FirstPacket.{IsAtMostOnePacket, first_packet_end};
ghost use Rattle.milter_fields.specs.Splitter.{IsBuffer};

use crate::fault::WireFault;
use crate::number::{LENGTH_MAX, PACKET_MAX, number_from_bytes};

/// The fault of a length that no packet has.
fn fault_of(stated: u32) -> Option<WireFault>
    ensures { result ≡ fault_of stated }
{
    if stated == 0 {
        Some(WireFault::ZeroLength)
    } else if LENGTH_MAX < stated {
        Some(WireFault::TooLong(stated))
    } else {
        None
    }
}

/// The fault of the length field that the bytes begin with, if it is whole and has one.
pub(crate) fn length_fault(bytes: &[u8]) -> Option<WireFault>
    ensures { result ≡ length_fault bytes.now }
{
    match bytes {
        [a, b, c, d, ..] => fault_of(number_from_bytes(*a, *b, *c, *d)),
        _ => None,
    }
}

/// The index after the first packet, or after the length field that no packet has; 4 while the length field is
/// incomplete.
#[tactic(auto, unfolding(crate::specs::FirstPacket::first_packet_end))]
fn first_packet_end(bytes: &[u8]) -> usize
    ensures end { result ≡ first_packet_end bytes.now }
    ensures most { result ≤ PACKET_MAX }
{
    match bytes {
        [a, b, c, d, ..] => {
            let stated = number_from_bytes(*a, *b, *c, *d);
            if fault_of(stated).is_some() {
                4
            } else {
                stated as usize + 4
            }
        }
        _ => 4,
    }
}

/// The bytes of the first packet, as far as it has come.
pub(crate) fn first_bytes(piece: &[u8]) -> &[u8]
    ensures bytes { result.now ≡ take (first_packet_end piece.now) piece.now }
    ensures one_packet { IsAtMostOnePacket result.now }
{
    let end = first_packet_end(piece).min(piece.len());
    &piece[..end]
}

/// Puts bytes of a piece after the first `len` of the buffer, up to the end of the first packet as far as it is known
/// before, and answers how many. Two such steps put all that belongs to it: the first one completes its length field.
pub(crate) fn fill(buffer: &mut [u8], len: usize, piece: &[u8]) -> usize
    requires { IsBuffer len buffer.old }
    ensures count { let unread = take len buffer.old in
        result ≡ min (first_packet_end unread - length unread) (length piece.now) }
    ensures bytes { take (len + result) buffer.new ≡ take len buffer.old ++ take result piece.now }
    ensures buffer { IsBuffer (len + result) buffer.new }
{
    let missing = first_packet_end(&buffer[..len]) - len;
    let count = missing.min(piece.len());
    put_after(buffer, len, &piece[..count]);
    count
}

/// Puts the first packet of a piece into the buffer, as far as it has come, and answers how many bytes.
pub(crate) fn fill_first(buffer: &mut [u8], piece: &[u8]) -> usize
    requires { length buffer.old ≡ PACKET_MAX }
    ensures count { result ≡ min (first_packet_end piece.now) (length piece.now) }
    ensures bytes { take result buffer.new ≡ take result piece.now }
    ensures buffer { IsBuffer result buffer.new }
{
    let count = first_packet_end(piece).min(piece.len());
    put_after(buffer, 0, &piece[..count]);
    count
}

/// Puts the bytes after the first `len` of the buffer, which has room for them.
fn put_after(buffer: &mut [u8], len: usize, bytes: &[u8])
    requires { len + length bytes.now ≤ length buffer.old }
    ensures room { length buffer.new ≡ length buffer.old }
    ensures bytes { take (len + length bytes.now) buffer.new ≡ take len buffer.old ++ bytes.now }
{
    buffer[len..len + bytes.len()].copy_from_slice(bytes);
}

/// The code and the payload of the first packet, where it is whole.
pub(crate) fn whole_packet(bytes: &[u8]) -> Result<Option<(u8, &[u8])>, WireFault>
    requires { IsAtMostOnePacket bytes.now }
    ensures found { IfOk result (λ found. IfSome found (λ p. (bytes.now ≡ packet p.0 p.1.now) × IsPayload p.1.now)) }
    ensures none { (result ≡ Ok None) ↔ IsUnfinished bytes.now }
    ensures fault { (f : WireFault) → IsErrOf result f ↔ (length_fault bytes.now ≡ Some f) }
{
    let [a, b, c, d, body @ ..] = bytes else {
        return Ok(None);
    };
    let stated = number_from_bytes(*a, *b, *c, *d);
    if let Some(fault) = fault_of(stated) {
        return Err(fault);
    }
    if body.len() < stated as usize {
        return Ok(None);
    }
    Ok(Some((body[0], &body[1..])))
}
