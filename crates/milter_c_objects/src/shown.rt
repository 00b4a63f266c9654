//! The texts that a filter is shown.

ghost use Rattle.std.specs.Prelude.{◌≡◌, option_map};
ghost use Rattle.milter_c_objects.specs.Shown.{client_endpoint, endpoint_of, header_name_at, header_value_at, host_in, origin_endpoint, recipient_at, sender_address_in};

use crate::status::{FAMILY_INET, FAMILY_INET6, FAMILY_UNIX};
use milter_filter_stream::Seen;
use milter_wire::Origin;

/// Where a client connects from.
#[derive(Clone, Copy)]
pub struct Address<'a> {
    /// The address, as text.
    pub text: &'a [u8],
    /// The number of its family.
    pub family: u32,
    /// The port.
    pub port: u16,
}

/// The name of the client's host. Doesn't allocate.
pub fn client_host(seen: &Seen) -> Option<&[u8]>
    ensures { option_map (λ text. text.now) result ≡ host_in seen.now.shown }
{
    match seen.client() {
        Some(client) => Some(client.host.as_slice()),
        None => None,
    }
}

/// Where the client connects from, if that is known. Doesn't allocate.
pub fn client_address(seen: &Seen) -> Option<Address<'_>>
    ensures { option_map endpoint_of result ≡ client_endpoint seen.now.shown.client }
{
    match seen.client() {
        Some(client) => origin_address(&client.origin),
        None => None,
    }
}

/// The address of an origin, if it is known.
fn origin_address(origin: &Origin) -> Option<Address<'_>>
    ensures { option_map endpoint_of result ≡ origin_endpoint origin.now }
{
    match origin {
        Origin::Unknown => None,
        Origin::Unix { port, address } => Some(Address {
            text: address.as_slice(),
            family: FAMILY_UNIX,
            port: *port,
        }),
        Origin::Inet { port, address } => Some(Address {
            text: address.as_slice(),
            family: FAMILY_INET,
            port: *port,
        }),
        Origin::Inet6 { port, address } => Some(Address {
            text: address.as_slice(),
            family: FAMILY_INET6,
            port: *port,
        }),
    }
}

/// The address of the sender. Doesn't allocate.
pub fn sender_address(seen: &Seen) -> Option<&[u8]>
    ensures { option_map (λ text. text.now) result ≡ sender_address_in seen.now.shown }
{
    match seen.sender() {
        Some(path) => Some(path.address.as_slice()),
        None => None,
    }
}

/// The address of the recipient at a place. Doesn't allocate.
pub fn recipient_address(seen: &Seen, place: usize) -> Option<&[u8]>
    ensures { option_map (λ text. text.now) result ≡ recipient_at seen.now.shown place }
{
    match seen.recipients().get(place) {
        Some(path) => Some(path.address.as_slice()),
        None => None,
    }
}

/// The name of the header field at a place. Doesn't allocate.
pub fn header_name(seen: &Seen, place: usize) -> Option<&[u8]>
    ensures { option_map (λ text. text.now) result ≡ header_name_at seen.now.shown place }
{
    match seen.headers().get(place) {
        Some(header) => Some(header.name.as_slice()),
        None => None,
    }
}

/// The value of the header field at a place. Doesn't allocate.
pub fn header_value(seen: &Seen, place: usize) -> Option<&[u8]>
    ensures { option_map (λ text. text.now) result ≡ header_value_at seen.now.shown place }
{
    match seen.headers().get(place) {
        Some(header) => Some(header.value.as_slice()),
        None => None,
    }
}
