//! Parts of one form.

ghost use Rattle.std.specs.Prelude.{◌≡◌, ◌∷◌, [], option_map, slice_get};
ghost use Rattle.milter_c_objects.specs.Parts.{arguments_part, client_part, header_part, number_part, options_parts, text_part, value_of};

use crate::status::{FAMILY_INET, FAMILY_INET6, FAMILY_UNIX, FAMILY_UNKNOWN};
use milter_wire::{Client, Header, Options, Origin, Text};

/// A part of a command or of a reply: its texts and its numbers. What a part doesn't have is empty, or 0.
#[derive(Clone, Copy, Debug, PartialEq, Eq)]
pub struct Part<'a> {
    /// A text, the host of a client, the address of a path, the name of a header field or of a macro, or the names of a
    /// symbol list.
    pub first: &'a [u8],
    /// The address of a client, the ESMTP parameters of an address, or the value of a header field or of a macro.
    pub second: &'a [u8],
    /// The family of a client's address; 1 where an address has ESMTP parameters in one text.
    pub kind: u32,
    /// A version, actions, a protocol, the code of a command, the port of a client, the index of a header field, or the
    /// number of a symbol list's stage.
    pub number: u32,
}

/// The part of something that has one part, at a place.
pub(crate) fn only_part<'a>(part: Part<'a>, place: usize) -> Option<Part<'a>>
    ensures { option_map value_of result ≡ slice_get (value_of part.entry ∷ []) place }
{
    match place {
        0 => Some(part),
        _ => None,
    }
}

/// A part that is a text.
pub(crate) fn text_part(text: &Text) -> Part<'_>
    ensures { value_of result ≡ text_part text.now }
{
    Part {
        first: text.as_slice(),
        second: &[],
        kind: 0,
        number: 0,
    }
}

/// A part that is a number.
pub(crate) fn number_part<'a>(number: u32) -> Part<'a>
    ensures { value_of result ≡ number_part number }
{
    Part {
        first: &[],
        second: &[],
        kind: 0,
        number,
    }
}

/// A part that is a header field, with its index.
pub(crate) fn header_part(index: u32, header: &Header) -> Part<'_>
    ensures { value_of result ≡ header_part index header.now }
{
    Part {
        first: header.name.as_slice(),
        second: header.value.as_slice(),
        kind: 0,
        number: index,
    }
}

/// A part that is an address, and its ESMTP parameters where there are some.
pub(crate) fn arguments_part<'a>(address: &'a Text, arguments: &'a Option<Text>) -> Part<'a>
    ensures { value_of result ≡ arguments_part address.now arguments.now }
{
    match arguments {
        None => text_part(address),
        Some(arguments) => Part {
            first: address.as_slice(),
            second: arguments.as_slice(),
            kind: 1,
            number: 0,
        },
    }
}

/// A part that is a client.
pub(crate) fn client_part(client: &Client) -> Part<'_>
    ensures { value_of result ≡ client_part client.now.host client.now.origin }
{
    let host = client.host.as_slice();
    match &client.origin {
        Origin::Unknown => Part {
            first: host,
            second: &[],
            kind: FAMILY_UNKNOWN,
            number: 0,
        },
        Origin::Unix { port, address } => address_part(host, address, FAMILY_UNIX, *port),
        Origin::Inet { port, address } => address_part(host, address, FAMILY_INET, *port),
        Origin::Inet6 { port, address } => address_part(host, address, FAMILY_INET6, *port),
    }
}

/// A part that is a client with a known address.
fn address_part<'a>(host: &'a [u8], address: &'a Text, family: u32, port: u16) -> Part<'a>
    ensures first { result.first.now ≡ host.now }
    ensures second { result.second.now ≡ address.now }
    ensures kind { result.kind ≡ family }
    ensures number { result.number ≡ port }
{
    Part {
        first: host,
        second: address.as_slice(),
        kind: family,
        number: u32::from(port),
    }
}

/// The part of options at a place: the version, the actions, the protocol.
pub(crate) fn options_part<'a>(options: Options, place: usize) -> Option<Part<'a>>
    ensures { option_map value_of result ≡ slice_get (options_parts options) place }
{
    match place {
        0 => Some(number_part(options.version)),
        1 => Some(number_part(options.actions.0)),
        2 => Some(number_part(options.protocol.0)),
        _ => None,
    }
}
