//! A TCP connection of a capture.

use crate::fault::CaptureFault;
use crate::offer::OfferReader;
use crate::segment::Segment;
use crate::stream::Stream;
use std::alloc::Global;
use std::net::SocketAddr;

/// A side of a connection.
#[derive(Clone, Copy, Debug, PartialEq, Eq)]
pub enum Sender {
    /// Who made the connection.
    Client,
    /// To whom it was made.
    Server,
}

/// Bytes that a side sent, in their order.
#[derive(Clone, Copy, Debug, PartialEq, Eq)]
pub struct Piece<'a> {
    /// Who sent them.
    pub sender: Sender,
    /// When they were there with all before them, in nanoseconds since 1970.
    pub time: u64,
    /// The bytes.
    pub bytes: &'a [u8],
}

/// A connection, as far as the capture has it.
#[derive(Drop)]
pub struct Connection<'a> {
    /// The address of who made it.
    pub client: SocketAddr,
    /// The address to which it was made.
    pub server: SocketAddr,
    /// When its first packet of the capture came, in nanoseconds since 1970.
    pub start: u64,
    /// What both sides sent, in the order in which it was there.
    pub pieces: Vec<Piece<'a>>,
    to_server: Stream<'a>,
    to_client: Stream<'a>,
}

impl<'a> Connection<'a> {
    /// A connection of which nothing has come.
    pub(crate) fn new(
        alloc: Global,
        client: SocketAddr,
        server: SocketAddr,
        start: u64,
    ) -> Connection<'a> {
        Connection {
            client,
            server,
            start,
            pieces: Vec::new(alloc),
            to_server: Stream::new(alloc),
            to_client: Stream::new(alloc),
        }
    }

    /// How many bytes of this side the capture doesn't have, after those that it has in order.
    pub fn lost(&self, sender: Sender) -> u64 {
        match sender {
            Sender::Client => self.to_server.lost(),
            Sender::Server => self.to_client.lost(),
        }
    }

    /// Whether it is one of a mail server with its filter: whether what the client sent begins with the offer of a mail
    /// server.
    pub fn is_of_milter(&self) -> bool {
        let mut reader = OfferReader::new();
        for piece in self.pieces.as_slice() {
            if piece.sender == Sender::Client {
                reader.read(piece.bytes);
            }
        }
        reader.is_offer()
    }

    /// Whether it is the connection that a segment of the client with this sequence number begins.
    pub(crate) fn is_begun_by(&self, sequence: u32) -> bool {
        self.to_server.begins_at(sequence.wrapping_add(1))
    }

    /// Takes a segment that came at this time.
    pub(crate) fn receive(&mut self, segment: &Segment<'a>, time: u64) -> Result<(), CaptureFault> {
        let sender = if segment.source == self.client {
            Sender::Client
        } else {
            Sender::Server
        };
        match sender {
            Sender::Client => receive_segment(&mut self.to_server, &mut self.to_client, segment)?,
            Sender::Server => receive_segment(&mut self.to_client, &mut self.to_server, segment)?,
        }
        self.add_pieces(sender, time)
    }

    /// Adds what this side sent and is there now with all before it.
    fn add_pieces(&mut self, sender: Sender, time: u64) -> Result<(), CaptureFault> {
        for _ in 0..self.waiting(sender) {
            let Some(bytes) = self.next(sender) else {
                return Ok(());
            };
            if !bytes.is_empty() {
                self.pieces.push(Piece {
                    sender,
                    time,
                    bytes,
                })?;
            }
        }
        Ok(())
    }

    /// How many pieces of this side wait for those before them, or are to be added.
    fn waiting(&self, sender: Sender) -> usize {
        match sender {
            Sender::Client => self.to_server.waiting(),
            Sender::Server => self.to_client.waiting(),
        }
    }

    /// The next bytes of this side that are there with all before them.
    fn next(&mut self, sender: Sender) -> Option<&'a [u8]> {
        match sender {
            Sender::Client => self.to_server.next(),
            Sender::Server => self.to_client.next(),
        }
    }
}

/// Gives a direction a segment, and the other one what the segment acknowledges of it.
fn receive_segment<'a>(
    stream: &mut Stream<'a>,
    other: &mut Stream<'a>,
    segment: &Segment<'a>,
) -> Result<(), CaptureFault> {
    let first = u32::from(segment.is_first);
    let sequence = segment.sequence.wrapping_add(first);
    stream.receive(sequence, segment.bytes, segment.length)?;
    if segment.is_last {
        stream.end_before(sequence.wrapping_add(low_half(segment.length)));
    }
    if let Some(acknowledged) = segment.acknowledged {
        other.acknowledge(acknowledged);
    }
    Ok(())
}

/// The lower 32 bits of a number.
fn low_half(number: usize) -> u32 {
    (number % 4_294_967_296) as u32
}
