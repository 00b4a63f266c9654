//! IP addresses.

ghost use Rattle.std.specs.Prelude.{◌≡◌, IfNone, IfSome, ℕ};
ghost use Rattle.milter_address.specs.declared.ip_address.Address.{Address as AddressValue};
ghost use Rattle.milter_address.specs.Addresses.{IsAddressText, IsV4Text, bits_of, ipv4_mapped};
ghost use Rattle.milter_address.specs.ReadTexts.{address_in};

use crate::zone::{parse_zoned, without_tag};
use std::net::Ipv4Addr;

/// The first 96 bits of an IPv4-mapped IPv6 address. Source: RFC 4291, 2.5.5.2.
const MAPPED: u128 = 0xffff;

/// How many IPv4 addresses there are.
const IPV4_COUNT: u128 = 0x1_0000_0000;

/// An IP address: its bits as a number, the first bit the highest.
#[derive(Clone, Copy, Debug, PartialEq, Eq)]
pub enum Address {
    /// An IPv4 address, of 32 bits.
    V4(u32),
    /// An IPv6 address, of 128 bits.
    V6(u128),
}

impl Address {
    /// The address that a text writes: four decimal numbers without superfluous zeros for IPv4, and any form of RFC
    /// 4291, 2.2 for IPv6. `IPv6:` may stand before an IPv6 address and a zone after it, and both are left out. `None`
    /// where the text writes no address. Doesn't allocate. Source: RFC 4291, 2.2; RFC 5321, 4.1.3; RFC 4007, 11.2.
    pub fn parse(text: &[u8]) -> Option<Self>
        ensures parsed { IfSome result (IsAddressText text.now) }
        ensures none { IfNone result ((address : AddressValue) → ¬ (IsAddressText text.now address)) }
        ensures value { result ≡ address_in text.now }
    {
        if let Some(number) = parse_v4(text) {
            return Some(Address::V4(number));
        }
        match parse_zoned(without_tag(text)) {
            Some(number) => Some(Address::V6(number)),
            None => None,
        }
    }

    /// How many bits it has: 32 or 128.
    pub fn bits(self) -> u8
        ensures { result ≡ bits_of self }
    {
        match self {
            Address::V4(_) => 32,
            Address::V6(_) => 128,
        }
    }

    /// The IPv4 address of an IPv4-mapped IPv6 address, `::ffff:a.b.c.d`. `None` for any other. Source: RFC 4291,
    /// 2.5.5.2.
    pub fn ipv4_mapped(self) -> Option<Self>
        ensures { result ≡ ipv4_mapped self }
    {
        match self {
            Address::V6(number) if number / IPV4_COUNT == MAPPED => {
                Some(Address::V4((number % IPV4_COUNT) as u32))
            }
            _ => None,
        }
    }
}

/// The number of the IPv4 address that the text writes.
#[tactic(auto, using(crate::proofs::Numbers::v4_parsed))]
fn parse_v4(text: &[u8]) -> Option<u32>
    ensures parsed { IfSome result (IsV4Text text.now) }
    ensures none { IfNone result ((number : ℕ) → ¬ (IsV4Text text.now number)) }
{
    match Ipv4Addr::parse_ascii(text) {
        Ok(address) => Some(address.to_bits()),
        Err(_) => None,
    }
}
