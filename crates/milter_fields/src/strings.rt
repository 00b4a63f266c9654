//! Strings: a text, and the NUL that ends it.

ghost use Rattle.std.specs.Prelude.{◌≡◌, ◌++◌, ◌↔◌, IsTrue, OnOk, length, option_map};
ghost use Rattle.milter_fields.specs.AppendedBytes.{PutsBytes};
ghost use Rattle.milter_fields.specs.Field.{HasNoNul, string};
ghost use Rattle.milter_fields.specs.Decoders.{DecodesOptional, string_at, string_in};

use crate::fault::NoMemory;
use crate::nuls::first_nul;
use crate::text::Text;
use std::alloc::Global;

/// Whether a string can carry the text: no byte of it is a NUL. Doesn't allocate.
pub fn has_no_nul(text: &[u8]) -> bool
    ensures { IsTrue result ↔ HasNoNul text.now }
{
    first_nul(text).is_none()
}

/// The number of bytes of the string that carries the text: those of the text, and a NUL. Doesn't allocate.
pub fn string_len(text: &[u8]) -> usize
    ensures { result ≡ length (string text.now) }
{
    text.len() + 1
}

/// Appends the string.
pub fn put_string(out: &mut Vec<u8>, text: &[u8]) -> Result<(), NoMemory>
    ensures { PutsBytes (string text.now) out.old.items out.new.items result }
{
    put_bytes(out, text)?;
    out.push(0)?;
    Ok(())
}

/// Appends bytes as they are.
pub fn put_bytes(out: &mut Vec<u8>, bytes: &[u8]) -> Result<(), NoMemory>
    ensures { PutsBytes bytes.now out.old.items out.new.items result }
{
    out.extend_from_slice(bytes)?;
    Ok(())
}

/// The text of the string that the bytes begin with, and the bytes after the string.
pub fn take_string(bytes: &[u8]) -> Option<(&[u8], &[u8])>
    ensures { option_map (λ x. (x.0.now, x.1.now)) result ≡ string_at bytes.now }
{
    let end = first_nul(bytes)?;
    Some((&bytes[..end], &bytes[end + 1..]))
}

/// The text of the one string that these bytes are, all of the bytes.
#[tactic(auto, unfolding(crate::specs::Decoders::string_in))]
pub fn one_string(bytes: &[u8]) -> Option<&[u8]>
    ensures { option_map (λ text. text.now) result ≡ string_in bytes.now }
{
    let (text, rest) = take_string(bytes)?;
    if !rest.is_empty() {
        return None;
    }
    Some(text)
}

/// The one string that these bytes are, all of the bytes.
pub fn take_text(alloc: Global, bytes: &[u8]) -> Result<Option<Text>, NoMemory>
    ensures { DecodesOptional (string_in bytes.now) result }
{
    let Some(text) = one_string(bytes) else {
        return Ok(None);
    };
    Ok(Some(Text::copy_of(alloc, text)?))
}
