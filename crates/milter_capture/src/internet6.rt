//! What an IPv6 packet carries of TCP.

use crate::byte_order::at_most;
use crate::internet::{Datagram, TCP, segment_length};
use std::net::{IpAddr, Ipv6Addr};

/// What follows a header of IPv6.
#[derive(Clone, Copy)]
struct Rest<'a> {
    /// The number of what follows.
    next: u8,
    /// Its bytes, up to what was captured of them.
    bytes: &'a [u8],
    /// How many they were.
    length: usize,
}

/// The TCP segment in an IPv6 packet; nothing where it has no whole one.
pub(crate) fn datagram6(packet: &[u8]) -> Option<Datagram<'_>> {
    let (fixed, rest) = packet.split_at_checked(8)?;
    let (source, rest) = rest.split_at_checked(16)?;
    let (destination, bytes) = rest.split_at_checked(16)?;
    let [_, _, _, _, high, low, next, _] = fixed else {
        return None;
    };
    let length = segment_length(u16::from_be_bytes([*high, *low]), 0, bytes);
    let carried = without_extensions(Rest {
        next: *next,
        bytes: at_most(bytes, length),
        length,
    })?;
    Some(Datagram {
        source: address(source)?,
        destination: address(destination)?,
        segment: carried.bytes,
        length: carried.length,
    })
}

/// The address of these bytes.
fn address(bytes: &[u8]) -> Option<IpAddr> {
    let octets = bytes.first_chunk::<16>()?;
    Some(IpAddr::V6(Ipv6Addr::from_octets(*octets)))
}

/// What follows the headers that IPv6 has more; nothing where that isn't TCP.
fn without_extensions(first: Rest<'_>) -> Option<Rest<'_>> {
    let mut rest = first;
    for _ in 0..first.bytes.len() {
        if rest.next == TCP {
            return Some(rest);
        }
        rest = after_extension(rest)?;
    }
    None
}

/// What follows a header with options, for the destination or for each hop, or with a route.
fn after_extension(rest: Rest<'_>) -> Option<Rest<'_>> {
    if !matches!(rest.next, 0 | 43 | 60) {
        return None;
    }
    let [next, units, ..] = rest.bytes else {
        return None;
    };
    let size = (usize::from(*units) + 1) * 8;
    let (_, bytes) = rest.bytes.split_at_checked(size)?;
    Some(Rest {
        next: *next,
        bytes,
        length: rest.length.saturating_sub(size),
    })
}
