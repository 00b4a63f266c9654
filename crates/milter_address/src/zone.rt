//! IPv6 addresses with the tag and the zone that may stand around them.

ghost use Rattle.std.specs.Prelude.{◌≡◌, ◌&&◌, IfNone, IfSome, not, ℕ};
ghost use Rattle.std.specs.List.{list_all};
ghost use Rattle.milter_address.specs.Addresses.{IsV6Text, IsZonedText, after_tag, is_delimiter, is_zone};

use crate::splits::split_at_byte;
use std::net::Ipv6Addr;

/// The tag of an IPv6 address. Source: RFC 5321, 4.1.3.
const TAG: &[u8] = b"IPv6:";

/// The text after the tag `IPv6:`, in either case, or all of it where it has none.
pub(crate) fn without_tag(text: &[u8]) -> &[u8]
    ensures { result.now ≡ after_tag text.now }
{
    if text.len() >= TAG.len() && text[..TAG.len()].eq_ignore_ascii_case(TAG) {
        &text[TAG.len()..]
    } else {
        text
    }
}

/// The number of the IPv6 address that the text writes, with a zone after it or none.
pub(crate) fn parse_zoned(text: &[u8]) -> Option<u128>
    ensures parsed { IfSome result (IsZonedText text.now) }
    ensures none { IfNone result ((number : ℕ) → ¬ (IsZonedText text.now number)) }
{
    let (address, zone) = split_at_byte(text, b'%');
    if is_zone(zone) {
        parse_v6(address)
    } else {
        None
    }
}

/// Whether it is no zone at all, or `%` and a name.
fn is_zone(text: &[u8]) -> bool
    ensures { result ≡ is_zone text.now }
{
    match text {
        [] => true,
        [_percent, name @ ..] => !name.is_empty() && has_no_delimiter(name),
    }
}

/// Whether no byte is `%` or `/`.
fn has_no_delimiter(name: &[u8]) -> bool
    ensures { result ≡ list_all (λ byte. not (is_delimiter byte)) name.now }
{
    name.iter().all(|byte| !(*byte == b'%' || *byte == b'/'))
}

/// The number of the IPv6 address that the text writes.
#[tactic(auto, using(crate::proofs::Numbers::v6_parsed))]
fn parse_v6(text: &[u8]) -> Option<u128>
    ensures parsed { IfSome result (IsV6Text text.now) }
    ensures none { IfNone result ((number : ℕ) → ¬ (IsV6Text text.now number)) }
{
    match Ipv6Addr::parse_ascii(text) {
        Ok(address) => Some(address.to_bits()),
        Err(_) => None,
    }
}
