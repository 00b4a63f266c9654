//! What packets are decoded to.

ghost use Rattle.std.specs.Prelude.{◌≡◌, ◌≢◌, ◌≤◌, ◌<◌, IsSomeAnd, MatchOption, Ok, length, slice_get};
ghost use Rattle.milter_fields.specs.declared.number.TheConstants.{PAYLOAD_MAX};
ghost use Rattle.milter_c_objects.specs.Objects.{IsKept, decoded_of};
ghost use Rattle.milter_c_objects.specs.DecodedPackets.{decoded_command, decoded_reply};
ghost use Rattle.milter_c_objects.specs.Parts.{parts_of};
ghost use Rattle.milter_c.specs.Packets.{IsUnread, frame_of};
ghost use Rattle.milter_c.specs.Views.{part_in};

use crate::view::{PartView, let_object};
use milter_c_objects::status::{NO_MEMORY, NOTHING, OK, WIRE_NO_MEMORY, WIRE_TOO_LONG, WRONG_KIND};
use milter_c_objects::{Decoded, Handle, Object, memory_status, wire_fault_number};
use milter_fields::PAYLOAD_MAX;
use std::alloc::Global;

/// Decodes a packet to a filter, and puts its command into the handle.
#[unsafe(no_mangle)]
pub extern "C" fn deiruska_decoded_command(
    alloc: Global,
    decoded: &mut Handle,
    code: u8,
    payload: &[u8],
) -> i32
    ensures done { result ≡ OK → IsSomeAnd (decoded_of decoded.new) (λ it.
        decoded_command (frame_of code payload.now) ≡ Ok it) }
    ensures kept { result ≢ OK → IsKept decoded.old decoded.new }
    ensures too_long { PAYLOAD_MAX < length payload.now → result ≡ WIRE_TOO_LONG }
    ensures fault { length payload.now ≤ PAYLOAD_MAX → result ≢ OK → result ≢ WIRE_NO_MEMORY → result ≢ NO_MEMORY →
        IsUnread (decoded_command (frame_of code payload.now)) result }
{
    if payload.len() > PAYLOAD_MAX {
        return WIRE_TOO_LONG;
    }
    match Decoded::command(alloc, code, payload) {
        Ok(it) => memory_status(decoded.put(alloc, Object::Decoded(it))),
        Err(fault) => wire_fault_number(fault),
    }
}

/// Decodes a packet of a filter, and puts its reply into the handle.
#[unsafe(no_mangle)]
pub extern "C" fn deiruska_decoded_reply(
    alloc: Global,
    decoded: &mut Handle,
    code: u8,
    payload: &[u8],
) -> i32
    ensures done { result ≡ OK → IsSomeAnd (decoded_of decoded.new) (λ it.
        decoded_reply (frame_of code payload.now) ≡ Ok it) }
    ensures kept { result ≢ OK → IsKept decoded.old decoded.new }
    ensures too_long { PAYLOAD_MAX < length payload.now → result ≡ WIRE_TOO_LONG }
    ensures fault { length payload.now ≤ PAYLOAD_MAX → result ≢ OK → result ≢ WIRE_NO_MEMORY → result ≢ NO_MEMORY →
        IsUnread (decoded_reply (frame_of code payload.now)) result }
{
    if payload.len() > PAYLOAD_MAX {
        return WIRE_TOO_LONG;
    }
    match Decoded::reply(alloc, code, payload) {
        Ok(it) => memory_status(decoded.put(alloc, Object::Decoded(it))),
        Err(fault) => wire_fault_number(fault),
    }
}

/// The part of a command or a reply at a place, from 0. Doesn't allocate.
#[unsafe(no_mangle)]
pub extern "C" fn deiruska_decoded_part<'a>(
    decoded: &'a mut Handle,
    place: usize,
    out: &mut PartView<'a>,
) -> i32
    ensures part { MatchOption (decoded_of decoded.old) (result ≡ WRONG_KIND) (λ it.
        MatchOption (slice_get (parts_of it) place) (result ≡ NOTHING) (λ part.
        (result ≡ OK) × (part_in out.new ≡ part))) }
    ensures unwritten { result ≢ OK → out.new ≡ out.old }
{
    let_object!(it: Decoded = decoded);
    let Some(part) = it.part(place) else {
        return NOTHING;
    };
    out.first = part.first;
    out.second = part.second;
    out.kind = part.kind;
    out.number = part.number;
    OK
}
