//! Header fields of a message, and their encoding: the name and the value, a string each.

ghost use Rattle.std.specs.Prelude.{◌≡◌, ◌-◌, ◌^◌, ◌++◌, ◌↔◌, IfOk, IsTrue, OnOk, length, min, option_map};
ghost use Rattle.milter_fields.specs.AppendedBytes.{PutsBytes};
ghost use Rattle.milter_fields.specs.Number.{number};
ghost use Rattle.milter_fields.specs.Layout.{header, HeaderFits};
ghost use Rattle.milter_fields.specs.Decoders.{DecodesOptional, header_in, indexed_in};
ghost use Rattle.milter_fields.specs.Borrowed.{header_of};

use crate::fault::NoMemory;
use crate::number::{put_number, take_number};
use crate::strings::{has_no_nul, put_string, string_len, take_string};
use crate::text::Text;
use std::alloc::Global;

/// A header field of a message. Source: the libmilter callback documentation (xxfi_header).
#[derive(Clone, Debug, PartialEq, Eq, Drop)]
pub struct Header {
    /// The name, without the colon.
    pub name: Text,
    /// The value as it is in the message; it may have line ends.
    pub value: Text,
}

/// A header field that is borrowed, from a packet or from a [`Header`]. Source: the libmilter callback documentation
/// (xxfi_header).
#[derive(Clone, Copy, Debug, PartialEq, Eq)]
pub struct HeaderRef<'a> {
    /// The name, without the colon.
    pub name: &'a [u8],
    /// The value; it may have line ends.
    pub value: &'a [u8],
}

impl Header {
    /// The same header field, borrowed. Doesn't allocate.
    pub fn as_ref(&self) -> HeaderRef<'_>
        ensures { header_of result ≡ self.now }
    {
        HeaderRef {
            name: self.name.as_slice(),
            value: self.value.as_slice(),
        }
    }
}

impl<'a> HeaderRef<'a> {
    /// The header field that these bytes encode, all of the bytes.
    #[tactic(auto, unfolding(crate::specs::Decoders::header_in))]
    pub fn of_payload(bytes: &'a [u8]) -> Option<HeaderRef<'a>>
        ensures { option_map header_of result ≡ header_in bytes.now }
    {
        let (name, rest) = take_string(bytes)?;
        let (value, rest) = take_string(rest)?;
        if !rest.is_empty() {
            return None;
        }
        Some(HeaderRef { name, value })
    }

    /// A copy of the header field.
    pub fn to_header(&self, alloc: Global) -> Result<Header, NoMemory>
        ensures { IfOk result (λ copy. copy ≡ header_of self.now) }
    {
        let name = Text::copy_of(alloc, self.name)?;
        let value = Text::copy_of(alloc, self.value)?;
        Ok(Header { name, value })
    }

    /// Makes the header field a copy of this one, in the room that its texts have where that is enough. After
    /// `NoMemory` nothing is known of it.
    pub fn copy_to(&self, header: &mut Header) -> Result<(), NoMemory>
        ensures { OnOk result (header.new ≡ header_of self.now) }
    {
        header.name.set(self.name)?;
        header.value.set(self.value)
    }

    /// Whether neither string has a NUL.
    pub fn fits(&self) -> bool
        ensures { IsTrue result ↔ HeaderFits (header_of self.now) }
    {
        has_no_nul(self.name) && has_no_nul(self.value)
    }

    /// The number of bytes of the two strings, or the greatest `usize`.
    pub fn payload_len(&self) -> usize
        ensures { result ≡ min (length (header (header_of self.now))) (2 ^ 64 - 1) }
    {
        string_len(self.name).saturating_add(string_len(self.value))
    }

    /// Appends the two strings.
    pub fn put(&self, out: &mut Vec<u8>) -> Result<(), NoMemory>
        ensures { PutsBytes (header (header_of self.now)) out.old.items out.new.items result }
    {
        put_string(out, self.name)?;
        put_string(out, self.value)
    }
}

/// Whether neither string has a NUL.
pub fn header_fits(value: &Header) -> bool
    ensures { IsTrue result ↔ HeaderFits value.now }
{
    value.as_ref().fits()
}

/// The number of bytes of the two strings in a packet, or the greatest `usize` where there are more. Doesn't allocate.
pub fn header_len(value: &Header) -> usize
    ensures { result ≡ min (length (header value.now)) (2 ^ 64 - 1) }
{
    value.as_ref().payload_len()
}

/// Appends the two strings.
pub fn put_header(out: &mut Vec<u8>, value: &Header) -> Result<(), NoMemory>
    ensures { PutsBytes (header value.now) out.old.items out.new.items result }
{
    value.as_ref().put(out)
}

/// Appends a number and the two strings.
pub fn put_indexed(out: &mut Vec<u8>, index: u32, value: &Header) -> Result<(), NoMemory>
    ensures { PutsBytes (number index ++ header value.now) out.old.items out.new.items result }
{
    put_number(out, index)?;
    put_header(out, value)
}

/// The header field that these bytes encode, all of the bytes.
pub fn take_header(alloc: Global, bytes: &[u8]) -> Result<Option<Header>, NoMemory>
    ensures { DecodesOptional (header_in bytes.now) result }
{
    let Some(header) = HeaderRef::of_payload(bytes) else {
        return Ok(None);
    };
    Ok(Some(header.to_header(alloc)?))
}

/// The number and the header field that these bytes encode, all of the bytes.
#[tactic(auto, unfolding(crate::specs::Decoders::indexed_in))]
pub fn take_indexed(alloc: Global, bytes: &[u8]) -> Result<Option<(u32, Header)>, NoMemory>
    ensures { DecodesOptional (indexed_in bytes.now) result }
{
    let Some((index, rest)) = take_number(bytes) else {
        return Ok(None);
    };
    let Some(header) = take_header(alloc, rest)? else {
        return Ok(None);
    };
    Ok(Some((index, header)))
}
