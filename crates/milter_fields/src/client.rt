//! Clients that connect to the mail server, and their encoding: the host, a byte for the family of the address, and for
//! a known family the port and the address.

ghost use Rattle.std.specs.Prelude.{◌≡◌, ◌-◌, ◌^◌, ◌∷◌, ◌++◌, ◌↔◌, IfOk, IsTrue, length, min, option_map, [], codes};
ghost use Rattle.milter_fields.specs.AppendedBytes.{PutsBytes};
ghost use Rattle.milter_fields.specs.Field.{port, string};
ghost use Rattle.milter_fields.specs.Layout.{client, origin, ClientFits, OriginFits};
ghost use Rattle.milter_fields.specs.Decoders.{client_in, origin_in, endpoint_in};
ghost use Rattle.milter_fields.specs.Borrowed.{client_of, origin_of};

use crate::fault::NoMemory;
use crate::port::{put_port, take_port};
use crate::strings::{has_no_nul, one_string, put_string, string_len, take_string};
use crate::text::Text;
use std::alloc::Global;

/// A client of which nothing is known. Source: mfdef.h.
pub const SMFIA_UNKNOWN: u8 = b'U';

/// A client at a Unix socket. Source: mfdef.h.
pub const SMFIA_UNIX: u8 = b'L';

/// A client with an IPv4 address. Source: mfdef.h.
pub const SMFIA_INET: u8 = b'4';

/// A client with an IPv6 address. Source: mfdef.h.
pub const SMFIA_INET6: u8 = b'6';

/// The codes of the families. Source: mfdef.h.
pub fn family_codes()
    ensures { SMFIA_UNKNOWN ∷ SMFIA_UNIX ∷ SMFIA_INET ∷ SMFIA_INET6 ∷ [] ≡ codes "UL46" }
{}

/// A client of the mail server. Source: the libmilter callback documentation (xxfi_connect).
#[derive(Clone, Debug, PartialEq, Eq, Drop)]
pub struct Client {
    /// The name of the host, or its address in brackets.
    pub host: Text,
    /// Where it connects from.
    pub origin: Origin,
}

/// Where a client connects from. The addresses are texts that nothing looks into. Source: mfdef.h (SMFIA_UNKNOWN
/// to SMFIA_INET6).
#[derive(Clone, Debug, PartialEq, Eq, Drop)]
pub enum Origin {
    /// `U`: nothing is known.
    Unknown,
    /// `L`: a socket of the same machine, with its path.
    Unix {
        /// The port, which has no meaning here.
        port: u16,
        /// The path.
        address: Text,
    },
    /// `4`: a host with an IPv4 address.
    Inet {
        /// The port.
        port: u16,
        /// The address, in dotted decimal.
        address: Text,
    },
    /// `6`: a host with an IPv6 address.
    Inet6 {
        /// The port.
        port: u16,
        /// The address, in hexadecimal and colons.
        address: Text,
    },
}

/// A client that is borrowed, from a packet or from a [`Client`]. Source: the libmilter callback documentation
/// (xxfi_connect).
#[derive(Clone, Copy, Debug, PartialEq, Eq)]
pub struct ClientRef<'a> {
    /// The name of the host, or its address in brackets.
    pub host: &'a [u8],
    /// Where it connects from.
    pub origin: OriginRef<'a>,
}

/// Where a client that is borrowed connects from: as [`Origin`].
#[derive(Clone, Copy, Debug, PartialEq, Eq)]
pub enum OriginRef<'a> {
    /// `U`: nothing is known.
    Unknown,
    /// `L`: a socket of the same machine, with its path.
    Unix {
        /// The port, which has no meaning here.
        port: u16,
        /// The path.
        address: &'a [u8],
    },
    /// `4`: a host with an IPv4 address.
    Inet {
        /// The port.
        port: u16,
        /// The address, in dotted decimal.
        address: &'a [u8],
    },
    /// `6`: a host with an IPv6 address.
    Inet6 {
        /// The port.
        port: u16,
        /// The address, in hexadecimal and colons.
        address: &'a [u8],
    },
}

impl Client {
    /// The same client, borrowed. Doesn't allocate.
    pub fn as_ref(&self) -> ClientRef<'_>
        ensures { client_of result ≡ self.now }
    {
        ClientRef {
            host: self.host.as_slice(),
            origin: self.origin.as_ref(),
        }
    }
}

impl Origin {
    /// The same origin, borrowed. Doesn't allocate.
    pub fn as_ref(&self) -> OriginRef<'_>
        ensures { origin_of result ≡ self.now }
    {
        match self {
            Origin::Unknown => OriginRef::Unknown,
            Origin::Unix { port, address } => OriginRef::Unix {
                port: *port,
                address: address.as_slice(),
            },
            Origin::Inet { port, address } => OriginRef::Inet {
                port: *port,
                address: address.as_slice(),
            },
            Origin::Inet6 { port, address } => OriginRef::Inet6 {
                port: *port,
                address: address.as_slice(),
            },
        }
    }
}

impl<'a> OriginRef<'a> {
    /// The origin that these bytes encode, all of the bytes.
    #[tactic(auto, unfolding(crate::specs::Decoders::origin_in))]
    fn of_payload(bytes: &'a [u8]) -> Option<OriginRef<'a>>
        ensures { option_map origin_of result ≡ origin_in bytes.now }
    {
        let [family, rest @ ..] = bytes else {
            return None;
        };
        if *family == SMFIA_UNKNOWN {
            return rest.is_empty().then_some(OriginRef::Unknown);
        }
        let (port, address) = endpoint_of(rest)?;
        match *family {
            SMFIA_UNIX => Some(OriginRef::Unix { port, address }),
            SMFIA_INET => Some(OriginRef::Inet { port, address }),
            SMFIA_INET6 => Some(OriginRef::Inet6 { port, address }),
            _ => None,
        }
    }

    /// A copy of the origin.
    pub fn to_origin(&self, alloc: Global) -> Result<Origin, NoMemory>
        ensures { IfOk result (λ copy. copy ≡ origin_of self.now) }
    {
        match *self {
            OriginRef::Unknown => Ok(Origin::Unknown),
            OriginRef::Unix { port, address } => Ok(Origin::Unix {
                port,
                address: Text::copy_of(alloc, address)?,
            }),
            OriginRef::Inet { port, address } => Ok(Origin::Inet {
                port,
                address: Text::copy_of(alloc, address)?,
            }),
            OriginRef::Inet6 { port, address } => Ok(Origin::Inet6 {
                port,
                address: Text::copy_of(alloc, address)?,
            }),
        }
    }

    /// Whether the address, if there is one, has no NUL.
    fn fits(&self) -> bool
        ensures { IsTrue result ↔ OriginFits (origin_of self.now) }
    {
        match *self {
            OriginRef::Unknown => true,
            OriginRef::Unix { port, address }
            | OriginRef::Inet { port, address }
            | OriginRef::Inet6 { port, address } => {
                // Each port is in its range, by its type.
                let _port = port;
                has_no_nul(address)
            }
        }
    }

    /// The number of bytes of its encoding, or the greatest `usize`.
    #[tactic(auto, unfolding(crate::specs::Field::port))]
    fn payload_len(&self) -> usize
        ensures { result ≡ min (length (origin (origin_of self.now))) (2 ^ 64 - 1) }
    {
        match *self {
            OriginRef::Unknown => 1,
            OriginRef::Unix { address, .. }
            | OriginRef::Inet { address, .. }
            | OriginRef::Inet6 { address, .. } => string_len(address).saturating_add(3),
        }
    }

    /// Appends the family, and the port and the address if there are any.
    fn put(&self, out: &mut Vec<u8>) -> Result<(), NoMemory>
        ensures { PutsBytes (origin (origin_of self.now)) out.old.items out.new.items result }
    {
        match *self {
            OriginRef::Unknown => {
                out.push(SMFIA_UNKNOWN)?;
                Ok(())
            }
            OriginRef::Unix { port, address } => put_endpoint(out, SMFIA_UNIX, port, address),
            OriginRef::Inet { port, address } => put_endpoint(out, SMFIA_INET, port, address),
            OriginRef::Inet6 { port, address } => put_endpoint(out, SMFIA_INET6, port, address),
        }
    }
}

impl<'a> ClientRef<'a> {
    /// The client that these bytes encode, all of the bytes.
    #[tactic(auto, unfolding(crate::specs::Decoders::client_in))]
    pub fn of_payload(bytes: &'a [u8]) -> Option<ClientRef<'a>>
        ensures { option_map client_of result ≡ client_in bytes.now }
    {
        let (host, rest) = take_string(bytes)?;
        let origin = OriginRef::of_payload(rest)?;
        Some(ClientRef { host, origin })
    }

    /// A copy of the client.
    pub fn to_client(&self, alloc: Global) -> Result<Client, NoMemory>
        ensures { IfOk result (λ copy. copy ≡ client_of self.now) }
    {
        let host = Text::copy_of(alloc, self.host)?;
        let origin = self.origin.to_origin(alloc)?;
        Ok(Client { host, origin })
    }

    /// Whether no string has a NUL.
    pub fn fits(&self) -> bool
        ensures { IsTrue result ↔ ClientFits (client_of self.now) }
    {
        has_no_nul(self.host) && self.origin.fits()
    }

    /// The number of bytes of its encoding, or the greatest `usize`.
    pub fn payload_len(&self) -> usize
        ensures { result ≡ min (length (client (client_of self.now))) (2 ^ 64 - 1) }
    {
        string_len(self.host).saturating_add(self.origin.payload_len())
    }

    /// Appends the host and the origin.
    pub fn put(&self, out: &mut Vec<u8>) -> Result<(), NoMemory>
        ensures { PutsBytes (client (client_of self.now)) out.old.items out.new.items result }
    {
        put_string(out, self.host)?;
        self.origin.put(out)
    }
}

fn put_endpoint(out: &mut Vec<u8>, family: u8, at: u16, address: &[u8]) -> Result<(), NoMemory>
    ensures { PutsBytes (family ∷ (port at ++ string address.now)) out.old.items out.new.items result }
{
    out.push(family)?;
    put_port(out, at)?;
    put_string(out, address)
}

/// The port and the address that these bytes encode, all of the bytes.
#[tactic(auto, unfolding(crate::specs::Decoders::endpoint_in))]
fn endpoint_of(bytes: &[u8]) -> Option<(u16, &[u8])>
    ensures { option_map (λ x. (x.0, x.1.now)) result ≡ endpoint_in bytes.now }
{
    let (port, rest) = take_port(bytes)?;
    let address = one_string(rest)?;
    Some((port, address))
}
