//! Numbers in four bytes, the highest first, and the head of a packet.

ghost use Rattle.std.specs.Prelude.{◌≡◌, ◌+◌, ◌≤◌, ◌∷◌, ◌++◌, [], OnOk, option_map};
ghost use Rattle.milter_fields.specs.AppendedBytes.{PutsBytes};
ghost use Rattle.milter_fields.specs.Number.{number, number_at, number_from_bytes};

use crate::fault::NoMemory;

/// The most bytes that a payload has. Source: mfdef.h (MILTER_CHUNK_SIZE).
pub const PAYLOAD_MAX: usize = 65_535;

/// The greatest length that a packet states: one byte of code and 65,535 of payload.
pub(crate) const LENGTH_MAX: u32 = 65_536;

/// The most bytes that a packet has: its length field, and what that states.
pub(crate) const PACKET_MAX: usize = 65_540;

/// The number of bytes of a packet before its payload: its length in four bytes, and its code.
pub const HEAD_LEN: usize = 5;

/// Appends a number in four bytes, the highest first. After `NoMemory` a prefix of them may have been appended.
#[tactic(auto, unfolding(crate::specs::Number::number))]
pub fn put_number(out: &mut Vec<u8>, value: u32) -> Result<(), NoMemory>
    ensures { PutsBytes (number value) out.old.items out.new.items result }
{
    out.extend_from_slice(&value.to_be_bytes())?;
    Ok(())
}

/// The number that four bytes encode, the highest first.
#[tactic(auto, unfolding(crate::specs::Number::number_from_bytes))]
pub(crate) fn number_from_bytes(a: u8, b: u8, c: u8, d: u8) -> u32
    ensures { result ≡ number_from_bytes a b c d }
{
    u32::from_be_bytes([a, b, c, d])
}

/// The number in the first four bytes, the highest first, and the bytes after them; none where there are fewer. Doesn't
/// allocate.
pub fn take_number(bytes: &[u8]) -> Option<(u32, &[u8])>
    ensures { option_map (λ x. (x.0, x.1.now)) result ≡ number_at bytes.now }
{
    match bytes {
        [a, b, c, d, rest @ ..] => Some((number_from_bytes(*a, *b, *c, *d), rest)),
        _ => None,
    }
}

/// Appends the head of a packet whose payload has so many bytes, at most 65,535: the length of code and payload in four
/// bytes, and the code. After `NoMemory` a prefix of it may have been appended. Source: mfdef.h.
pub fn put_head(out: &mut Vec<u8>, code: u8, payload_len: usize) -> Result<(), NoMemory>
    requires { payload_len ≤ PAYLOAD_MAX }
    ensures { PutsBytes (number (payload_len + 1) ++ code ∷ []) out.old.items out.new.items result }
{
    put_number(out, payload_len as u32 + 1)?;
    out.push(code)?;
    Ok(())
}
