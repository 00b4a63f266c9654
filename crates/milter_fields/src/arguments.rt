//! An address with the arguments that may follow it, a string each; no arguments are not the empty ones.

ghost use Rattle.std.specs.Prelude.{◌≡◌, ◌++◌, ◌↔◌, IsTrue, OnOk, length, option_map};
ghost use Rattle.milter_fields.specs.AppendedBytes.{PutsBytes};
ghost use Rattle.milter_fields.specs.Field.{string};
ghost use Rattle.milter_fields.specs.Layout.{arguments, ArgumentsFit};
ghost use Rattle.milter_fields.specs.Decoders.{DecodesOptional, addressed_in, arguments_in};

use crate::fault::NoMemory;
use crate::strings::{has_no_nul, one_string, put_string, string_len, take_string};
use crate::text::Text;
use std::alloc::Global;

/// Whether the arguments, if there are any, have no NUL.
pub fn arguments_fit(value: &Option<Text>) -> bool
    ensures { IsTrue result ↔ ArgumentsFit value.now }
{
    match value {
        Some(text) => has_no_nul(text.as_slice()),
        None => true,
    }
}

/// The number of bytes of the arguments in a packet: of one string, or none. Doesn't allocate.
pub fn arguments_len(value: &Option<Text>) -> usize
    ensures { result ≡ length (arguments value.now) }
{
    match value {
        Some(text) => string_len(text.as_slice()),
        None => 0,
    }
}

/// Appends the arguments, if there are any.
fn put_arguments(out: &mut Vec<u8>, value: &Option<Text>) -> Result<(), NoMemory>
    ensures { PutsBytes (arguments value.now) out.old.items out.new.items result }
{
    match value {
        Some(text) => put_string(out, text.as_slice()),
        None => Ok(()),
    }
}

/// Appends the address, and the arguments if there are any.
pub fn put_addressed(
    out: &mut Vec<u8>,
    address: &Text,
    value: &Option<Text>,
) -> Result<(), NoMemory>
    ensures { PutsBytes (string address.now ++ arguments value.now) out.old.items out.new.items result }
{
    put_string(out, address.as_slice())?;
    put_arguments(out, value)
}

/// No arguments, where no byte is there, or the one string that these bytes are, all of the bytes.
#[tactic(auto, unfolding(crate::specs::Decoders::arguments_in))]
fn find_arguments(bytes: &[u8]) -> Option<Option<&[u8]>>
    ensures { option_map (λ found. option_map (λ text. text.now) found) result ≡ arguments_in bytes.now }
{
    if bytes.is_empty() {
        return Some(None);
    }
    let text = one_string(bytes)?;
    Some(Some(text))
}

/// The address, and the arguments if there are any, that these bytes encode, all of the bytes.
#[tactic(auto, unfolding(crate::specs::Decoders::addressed_in))]
pub fn take_addressed(alloc: Global, bytes: &[u8]) -> Result<Option<(Text, Option<Text>)>, NoMemory>
    ensures { DecodesOptional (addressed_in bytes.now) result }
{
    let Some((address, rest)) = take_string(bytes) else {
        return Ok(None);
    };
    let Some(found) = find_arguments(rest) else {
        return Ok(None);
    };
    let address = Text::copy_of(alloc, address)?;
    match found {
        Some(text) => Ok(Some((address, Some(Text::copy_of(alloc, text)?)))),
        None => Ok(Some((address, None))),
    }
}
