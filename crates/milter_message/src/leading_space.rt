//! The blank that the value of a header field begins with: a message has it in its values, and peers send it only where
//! they negotiated.

ghost use Rattle.std.specs.Prelude.{◌≡◌, ◌-◌, ◌^◌, ◌↔◌, All, IfOk, IsTrue, false, length, min};
ghost use Rattle.milter_fields.specs.Borrowed.{header_of};
ghost use Rattle.milter_fields.specs.Layout.{header};
ghost use Rattle.milter_message.specs.LeadingSpace.{FieldFits, put_header, put_value, sent_header};

use milter_wire::{Header, HeaderRef, NoMemory, PAYLOAD_MAX, Text, string_len};
use std::alloc::Global;

/// The blank that the value of a header field begins with, after the colon. Source: mfdef.h (SMFIP_HDR_LEADSPC).
const LEADING_SPACE: u8 = b' ';

/// A header field as it is sent: with its whole value where leading spaces are sent, else without the one blank that
/// the value begins with, if it does. Doesn't allocate. Source: mfdef.h (SMFIP_HDR_LEADSPC).
pub fn sent_header(header: HeaderRef<'_>, leading_space: bool) -> HeaderRef<'_>
    ensures { header_of result ≡ sent_header leading_space (header_of header.entry) }
{
    match header.value {
        [LEADING_SPACE, rest @ ..] if !leading_space => HeaderRef {
            name: header.name,
            value: rest,
        },
        _ => header,
    }
}

/// The value of a header field as it is sent. Doesn't allocate.
pub fn sent_value(header: &Header, leading_space: bool) -> &[u8]
    ensures { result.now ≡ (sent_header leading_space header.now).value }
{
    sent_header(header.as_ref(), leading_space).value
}

/// Whether the packet of the header field fits without the blank that its value begins with.
pub(crate) fn field_fits(header: &Header) -> bool
    ensures { IsTrue result ↔ FieldFits header.now }
{
    if !header.name.has_no_nul() || !header.value.has_no_nul() {
        return false;
    }
    sent_len(header) <= PAYLOAD_MAX
}

/// The number of bytes of the payload of the header field without the blank that its value begins with; or the greatest
/// `usize`, where there are more.
fn sent_len(field: &Header) -> usize
    ensures { result ≡ min (length (header (sent_header false field.now))) (2 ^ 64 - 1) }
{
    string_len(field.name.as_slice())
        .saturating_add(sent_value(field, false).len())
        .saturating_add(1)
}

/// Whether each header field fits a packet without the blank that its value begins with.
pub(crate) fn fields_fit(headers: &[Header]) -> bool
    ensures { IsTrue result ↔ All FieldFits headers.now }
{
    headers.iter().all(|header| field_fits(header))
}

/// A copy of the header field as an edit puts it: where leading spaces aren't sent, its value gets a blank.
pub(crate) fn put_copy(
    alloc: Global,
    header: &Header,
    leading_space: bool,
) -> Result<Header, NoMemory>
    ensures { IfOk result (λ copy. copy ≡ put_header leading_space header.now) }
{
    let name = Text::copy_of(alloc, header.name.as_slice())?;
    let value = put_value(alloc, header.value.as_slice(), leading_space)?;
    Ok(Header { name, value })
}

/// A copy of the value, after a blank where leading spaces aren't sent.
pub(crate) fn put_value(alloc: Global, value: &[u8], leading_space: bool) -> Result<Text, NoMemory>
    ensures { IfOk result (λ copy. copy ≡ put_value leading_space value.now) }
{
    let mut bytes = Vec::with_capacity(alloc, string_len(value))?;
    if !leading_space {
        bytes.push(LEADING_SPACE)?;
    }
    bytes.extend_from_slice(value)?;
    Ok(Text::new(bytes))
}
