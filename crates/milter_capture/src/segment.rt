//! The TCP segment in a frame.

use crate::frame::internet_packet;
use crate::internet::{Datagram, datagram_in};
use crate::record::Frame;
use std::net::SocketAddr;

/// The bit of a segment that is the last of its direction.
const FIN: u8 = 1;

/// The bit of a segment that begins its direction.
const SYN: u8 = 2;

/// The bit of a segment that acknowledges the other direction.
const ACK: u8 = 16;

/// The bytes of a header without options.
const HEADER_LEAST: usize = 20;

/// A segment, as far as it was captured.
#[derive(Clone, Copy)]
pub(crate) struct Segment<'a> {
    /// Who sent it.
    pub(crate) source: SocketAddr,
    /// To whom.
    pub(crate) destination: SocketAddr,
    /// The number of its first byte; of one that begins its direction, that of the byte before.
    pub(crate) sequence: u32,
    /// The number of the first byte of the other direction that isn't acknowledged.
    pub(crate) acknowledged: Option<u32>,
    /// Whether it begins its direction.
    pub(crate) is_first: bool,
    /// Whether it ends its direction.
    pub(crate) is_last: bool,
    /// Its bytes, up to what was captured of them.
    pub(crate) bytes: &'a [u8],
    /// How many they were.
    pub(crate) length: usize,
}

/// The segment in a frame; nothing where it has no whole one.
pub(crate) fn segment_in<'a>(frame: &Frame<'a>) -> Option<Segment<'a>> {
    let packet = internet_packet(frame.link, frame.bytes)?;
    segment_of(&datagram_in(packet)?)
}

fn segment_of<'a>(carrier: &Datagram<'a>) -> Option<Segment<'a>> {
    let (ports, rest) = carrier.segment.split_at_checked(4)?;
    let (numbers, rest) = rest.split_at_checked(8)?;
    let [a, b, c, d] = ports else {
        return None;
    };
    let [offset, flags, ..] = rest else {
        return None;
    };
    let header = usize::from(*offset / 16) * 4;
    if header < HEADER_LEAST {
        return None;
    }
    let (_, bytes) = carrier.segment.split_at_checked(header)?;
    let (sequence, acknowledged) = sequence_numbers(numbers)?;
    let acknowledges = *flags & ACK != 0;
    Some(Segment {
        source: SocketAddr::new(carrier.source, u16::from_be_bytes([*a, *b])),
        destination: SocketAddr::new(carrier.destination, u16::from_be_bytes([*c, *d])),
        sequence,
        acknowledged: if acknowledges {
            Some(acknowledged)
        } else {
            None
        },
        is_first: *flags & SYN != 0,
        is_last: *flags & FIN != 0,
        bytes,
        length: carrier.length.saturating_sub(header),
    })
}

/// The two sequence numbers of a header.
fn sequence_numbers(bytes: &[u8]) -> Option<(u32, u32)> {
    let [a, b, c, d, e, f, g, h] = bytes else {
        return None;
    };
    let sequence = u32::from_be_bytes([*a, *b, *c, *d]);
    let acknowledged = u32::from_be_bytes([*e, *f, *g, *h]);
    Some((sequence, acknowledged))
}
