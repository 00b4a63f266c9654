//! What an IP packet carries of TCP.

use crate::byte_order::at_most;
use crate::internet6::datagram6;
use std::net::{IpAddr, Ipv4Addr};

/// The protocol number of TCP.
pub(crate) const TCP: u8 = 6;

/// The least bytes of an IPv4 header.
const HEADER_LEAST: usize = 20;

/// The bits beside a fragment's offset: whether more fragments follow, and the offset's higher half.
const FRAGMENT: u8 = 0x3f;

/// What an IP packet carries of TCP.
#[derive(Clone, Copy)]
pub(crate) struct Datagram<'a> {
    /// Who sent it.
    pub(crate) source: IpAddr,
    /// To whom.
    pub(crate) destination: IpAddr,
    /// The segment, up to what was captured of it.
    pub(crate) segment: &'a [u8],
    /// How many bytes the segment had.
    pub(crate) length: usize,
}

/// The TCP segment in an IP packet; nothing where it has no whole one.
pub(crate) fn datagram_in(packet: &[u8]) -> Option<Datagram<'_>> {
    match packet {
        [first, ..] if *first / 16 == 4 => datagram4(packet),
        [first, ..] if *first / 16 == 6 => datagram6(packet),
        _ => None,
    }
}

/// The same in an IPv4 packet.
fn datagram4(packet: &[u8]) -> Option<Datagram<'_>> {
    let (header, _) = packet.split_at_checked(HEADER_LEAST)?;
    let (fixed, addresses) = header.split_at_checked(12)?;
    let [first, _, high, low, _, _, flags, offset, _, TCP, ..] = fixed else {
        return None;
    };
    if *flags & FRAGMENT != 0 || *offset != 0 {
        return None;
    }
    let [a, b, c, d, e, f, g, h] = addresses else {
        return None;
    };
    let header = usize::from(*first % 16) * 4;
    if header < HEADER_LEAST {
        return None;
    }
    let (_, rest) = packet.split_at_checked(header)?;
    let length = segment_length(u16::from_be_bytes([*high, *low]), header, rest);
    Some(Datagram {
        source: IpAddr::V4(Ipv4Addr::new(*a, *b, *c, *d)),
        destination: IpAddr::V4(Ipv4Addr::new(*e, *f, *g, *h)),
        segment: at_most(rest, length),
        length,
    })
}

/// How many bytes follow a header in a packet of this length; those that are there where the length is 0, as in a
/// packet that the network card divides.
pub(crate) fn segment_length(total: u16, header: usize, rest: &[u8]) -> usize {
    match total {
        0 => rest.len(),
        total => usize::from(total).saturating_sub(header),
    }
}
