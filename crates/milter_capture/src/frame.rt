//! The IP packet in a frame.

use crate::link_type::LinkType;

/// The bytes of an Ethernet frame before its type.
const ADDRESSES: usize = 12;

/// The bytes of a cooked frame before its protocol.
const COOKED: usize = 14;

/// The bytes of the second form of a cooked frame between its protocol and the packet.
const COOKED_AGAIN: usize = 18;

/// The IP packet in a frame; nothing where it has another one.
pub(crate) fn internet_packet(link: LinkType, frame: &[u8]) -> Option<&[u8]> {
    match link {
        LinkType::Loopback => of_family(frame),
        LinkType::Ethernet => {
            let (_, rest) = frame.split_at_checked(ADDRESSES)?;
            of_type(untagged(rest))
        }
        LinkType::Raw => Some(frame),
        LinkType::Cooked => {
            let (_, rest) = frame.split_at_checked(COOKED)?;
            of_type(untagged(rest))
        }
        LinkType::CookedAgain => {
            let (protocol, rest) = frame.split_at_checked(2)?;
            let (_, packet) = rest.split_at_checked(COOKED_AGAIN)?;
            if is_internet(protocol) {
                Some(packet)
            } else {
                None
            }
        }
    }
}

/// The packet after an address family, whose number stands in the order of bytes of the machine that captured it.
fn of_family(frame: &[u8]) -> Option<&[u8]> {
    match frame {
        [family, 0, 0, 0, packet @ ..] if is_family(*family) => Some(packet),
        [0, 0, 0, family, packet @ ..] if is_family(*family) => Some(packet),
        _ => None,
    }
}

/// Whether an address family is one of IP: of IPv4 everywhere, or of IPv6 on one of the systems.
fn is_family(family: u8) -> bool {
    matches!(family, 2 | 10 | 24 | 28 | 30)
}

/// The type and what follows it, without the tag of a virtual network.
fn untagged(bytes: &[u8]) -> &[u8] {
    match bytes {
        [0x81, 0x00, _, _, rest @ ..] | [0x88, 0xa8, _, _, rest @ ..] => rest,
        _ => bytes,
    }
}

/// The packet after a type of Ethernet.
fn of_type(bytes: &[u8]) -> Option<&[u8]> {
    let (protocol, packet) = bytes.split_at_checked(2)?;
    if is_internet(protocol) {
        Some(packet)
    } else {
        None
    }
}

/// Whether a type of Ethernet is one of IP.
fn is_internet(protocol: &[u8]) -> bool {
    matches!(protocol, [0x08, 0x00] | [0x86, 0xdd])
}
