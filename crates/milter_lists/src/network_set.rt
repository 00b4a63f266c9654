//! Sets of the addresses of networks.

ghost use Rattle.std.specs.Prelude.{◌≡◌, Some};
ghost use Rattle.milter_address.specs.ReadTexts.{address_in};
ghost use Rattle.milter_lists.specs.NetworkRanges.{have_address, is_in_ranges, mapped_is_in_ranges};

use crate::range_set::RangeSet;
use milter_address::Address;

/// The addresses of some networks, as the numbers that their bits are.
#[derive(Debug, Drop)]
pub(crate) struct NetworkSet {
    /// Those of IPv4.
    pub(crate) v4: RangeSet,
    /// Those of IPv6.
    pub(crate) v6: RangeSet,
}

/// Whether one of the networks has the address that the text writes. Doesn't allocate.
pub(crate) fn has_address_text(set: &NetworkSet, text: &[u8]) -> bool
    ensures { result ≡ have_address set.now.v4 set.now.v6 (address_in text.now) }
{
    match Address::parse(text) {
        Some(address) => has_address(set, address),
        None => false,
    }
}

/// Whether one of the networks has the address, or the IPv4 address that it maps.
fn has_address(set: &NetworkSet, address: Address) -> bool
    ensures { result ≡ have_address set.now.v4 set.now.v6 (Some address) }
{
    is_in_range(set, address) || is_mapped_in_range(set, address.ipv4_mapped())
}

/// Whether one of the networks of the same family has the address.
fn is_in_range(set: &NetworkSet, address: Address) -> bool
    ensures { result ≡ is_in_ranges set.now.v4 set.now.v6 address }
{
    match address {
        Address::V4(number) => set.v4.contains(number.into()),
        Address::V6(number) => set.v6.contains(number),
    }
}

/// Whether one of the networks has the address, if there is one.
fn is_mapped_in_range(set: &NetworkSet, mapped: Option<Address>) -> bool
    ensures { result ≡ mapped_is_in_ranges set.now.v4 set.now.v6 mapped }
{
    match mapped {
        Some(address) => is_in_range(set, address),
        None => false,
    }
}
