//! Networks.

ghost use Rattle.std.specs.Prelude.{◌≡◌, ◌≤◌, ◌/◌, ◌^◌, ℕ, IfNone, IfSome, option_map};
ghost use Rattle.milter_address.specs.declared.ip_address.Address.{Address as AddressValue};
ghost use Rattle.milter_address.specs.Addresses.{bits_of};
ghost use Rattle.milter_address.specs.ReadTexts.{network_in};
ghost use Rattle.milter_address.specs.Networks.{IsNetworkText, IsPrefixText, is_within, mapped_shares_prefix, shares_prefix};

use crate::decimal::parse_decimal;
use crate::ip_address::Address;
use crate::splits::split_at_byte;

/// A network: the addresses of one family whose first bits are those of an address. Its other bits may have any value.
#[derive(Clone, Copy, Debug, PartialEq, Eq)]
pub struct Network {
    /// An address of the network.
    pub address: Address,
    /// How many bits are fixed: at most 32, or at most 128.
    pub prefix: u8,
    ghost fits: { prefix ≤ bits_of address },
}

impl Network {
    /// The network that a text writes: an address, `/` and the number of fixed bits in decimal, without superfluous
    /// zeros, or an address alone, all of whose bits are fixed. Bits after the prefix may be set. `None` where the text
    /// writes no network. Doesn't allocate. Source: RFC 4291, 2.3; RFC 4632, 3.1.
    pub fn parse(text: &[u8]) -> Option<Self>
        ensures parsed { IfSome result (λ network. IsNetworkText text.now network.address network.prefix) }
        ensures none { IfNone result ((address : AddressValue) (prefix : ℕ) →
            ¬ (IsNetworkText text.now address prefix)) }
        ensures value { option_map (λ network. (network.address, network.prefix)) result ≡ network_in text.now }
    {
        let (address_text, prefix_text) = split_at_byte(text, b'/');
        let address = Address::parse(address_text)?;
        let prefix = parse_prefix(prefix_text, address.bits())?;
        Some(Network { address, prefix })
    }

    /// Whether the address is within the network: it is of the same family and has the same first bits, or it is
    /// IPv4-mapped and its IPv4 address is within. An IPv4 address is within no network of IPv6.
    pub fn contains(&self, address: Address) -> bool
        ensures { result ≡ is_within self.now.address self.now.prefix address }
    {
        self.has_prefix_of(address) || self.has_prefix_of_mapped(address.ipv4_mapped())
    }

    /// Whether the address is of the same family and has the same first bits.
    fn has_prefix_of(&self, address: Address) -> bool
        ensures { result ≡ shares_prefix self.now.prefix self.now.address address }
    {
        let last_bits = u32::from(self.address.bits() - self.prefix);
        match (self.address, address) {
            (Address::V4(own), Address::V4(other)) => {
                without_last_bits(own.into(), last_bits)
                    == without_last_bits(other.into(), last_bits)
            }
            (Address::V6(own), Address::V6(other)) => {
                without_last_bits(own, last_bits) == without_last_bits(other, last_bits)
            }
            _ => false,
        }
    }

    /// Whether there is an address, of the same family and with the same first bits.
    fn has_prefix_of_mapped(&self, mapped: Option<Address>) -> bool
        ensures { result ≡ mapped_shares_prefix self.now.prefix self.now.address mapped }
    {
        match mapped {
            Some(address) => self.has_prefix_of(address),
            None => false,
        }
    }
}

/// The number of fixed bits, of so many, that the text after an address writes.
fn parse_prefix(text: &[u8], bits: u8) -> Option<u8>
    ensures parsed { IfSome result (IsPrefixText text.now bits) }
    ensures none { IfNone result ((prefix : ℕ) → ¬ (IsPrefixText text.now bits prefix)) }
{
    match text {
        [] => Some(bits),
        [_slash, digits @ ..] => match parse_decimal(digits) {
            Some(prefix) if prefix <= u16::from(bits) => Some(prefix as u8),
            _ => None,
        },
    }
}

/// The number without its last bits.
#[tactic(auto, using(crate::proofs::Shifts::shifted))]
fn without_last_bits(number: u128, count: u32) -> u128
    ensures { result ≡ number / 2 ^ count }
{
    number.checked_shr(count).unwrap_or(0)
}
