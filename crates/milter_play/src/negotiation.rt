//! What is negotiated on a connection to a filter, as its bytes are seen.

use milter_mta_client::{Dial, DialFault};
use milter_trace::{Direction, TraceForm, put_packet_as};
use milter_wire::{NoMemory, Splitter, WireFault};
use std::alloc::Global;
use std::cell::RefCell;
use std::io::{self, Read, Write};

/// How the lines are printed: with the names of bits.
const FORM: TraceForm = TraceForm {
    names: true,
    bodies: None,
};

/// The first packet of each direction of a connection: the offer, and the filter's reply to it.
#[derive(Drop)]
pub struct Negotiation {
    alloc: Global,
    packets: RefCell<FirstPackets>,
}

/// The first packets of both directions, as far as they were seen.
#[derive(Drop)]
struct FirstPackets {
    offer: FirstPacket,
    reply: FirstPacket,
    // Whether there was a connection.
    is_begun: bool,
    // Whether memory was refused for a packet or its line.
    is_refused: bool,
}

/// The first packet of a direction, as far as it was seen.
#[derive(Drop)]
struct FirstPacket {
    direction: Direction,
    splitter: Splitter,
    // Its line, once it is whole.
    line: Vec<u8>,
    // Whether nothing more of the direction is looked at.
    is_over: bool,
}

impl Negotiation {
    /// Of a connection that isn't made yet. Doesn't allocate.
    pub fn new(alloc: Global) -> Self {
        Negotiation {
            alloc,
            packets: RefCell::new(FirstPackets {
                offer: FirstPacket::new(alloc, Direction::ToFilter),
                reply: FirstPacket::new(alloc, Direction::ToMta),
                is_begun: false,
                is_refused: false,
            }),
        }
    }

    /// The lines of the packets that were seen, the offer first, as a trace has them with the names of bits.
    pub fn lines(&self) -> Result<Vec<u8>, NoMemory> {
        let mut lines = Vec::new(self.alloc);
        if let Ok(packets) = self.packets.try_borrow() {
            if packets.is_refused {
                return Err(NoMemory);
            }
            lines.extend_from_slice(packets.offer.line.as_slice())?;
            lines.extend_from_slice(packets.reply.line.as_slice())?;
        }
        Ok(lines)
    }

    /// Whether a connection that was just made is the first.
    fn begin(&self) -> bool {
        let Ok(mut packets) = self.packets.try_borrow_mut() else {
            return false;
        };
        let is_first = !packets.is_begun;
        packets.is_begun = true;
        is_first
    }

    /// Looks at bytes of a direction.
    fn note(&self, direction: Direction, bytes: &[u8]) {
        if let Ok(mut packets) = self.packets.try_borrow_mut() {
            packets.note(self.alloc, direction, bytes);
        }
    }
}

impl FirstPackets {
    /// Looks at bytes of a direction.
    fn note(&mut self, alloc: Global, direction: Direction, bytes: &[u8]) {
        let packet = match direction {
            Direction::ToFilter => &mut self.offer,
            Direction::ToMta => &mut self.reply,
        };
        if packet.note(alloc, bytes).is_err() {
            self.is_refused = true;
        }
    }
}

impl FirstPacket {
    /// Of a direction of which nothing was seen. Doesn't allocate.
    fn new(alloc: Global, direction: Direction) -> Self {
        FirstPacket {
            direction,
            splitter: Splitter::new(alloc),
            line: Vec::new(alloc),
            is_over: false,
        }
    }

    /// Looks at more bytes. Nothing is printed of a packet that can't be read.
    fn note(&mut self, alloc: Global, bytes: &[u8]) -> Result<(), NoMemory> {
        if self.is_over {
            return Ok(());
        }
        self.splitter.feed(bytes)?;
        match self.splitter.next() {
            Ok(None) => Ok(()),
            Ok(Some(packet)) => {
                self.is_over = true;
                match put_packet_as(alloc, FORM, self.direction, &packet, &mut self.line) {
                    Err(WireFault::NoMemory) => Err(NoMemory),
                    _ => Ok(()),
                }
            }
            Err(_) => {
                self.is_over = true;
                Ok(())
            }
        }
    }
}

/// Makes connections as another does, and has what is negotiated on the first of them seen, where that is wanted.
#[derive(Drop)]
pub struct SeenDial<'n, D> {
    dial: D,
    negotiation: Option<&'n Negotiation>,
}

/// A connection, whose negotiation is seen where it is to be.
#[derive(Drop)]
pub struct SeenLink<'n, L> {
    link: L,
    negotiation: Option<&'n Negotiation>,
}

impl<'n, D> SeenDial<'n, D> {
    /// One over the connections of `dial`; without a negotiation they are as `dial` makes them.
    pub fn new(dial: D, negotiation: Option<&'n Negotiation>) -> Self {
        SeenDial { dial, negotiation }
    }

    /// What makes the connections.
    pub fn dial_below(&self) -> &D {
        &self.dial
    }
}

impl<'n, D: Dial> Dial for SeenDial<'n, D> {
    type Link = SeenLink<'n, D::Link>;

    fn dial(&mut self) -> Result<SeenLink<'n, D::Link>, DialFault> {
        let link = self.dial.dial()?;
        let negotiation = match self.negotiation {
            Some(negotiation) if negotiation.begin() => Some(negotiation),
            _ => None,
        };
        Ok(SeenLink { link, negotiation })
    }
}

impl<L: Read> Read for SeenLink<'_, L> {
    fn read(&mut self, buf: &mut [u8]) -> io::Result<usize> {
        let count = self.link.read(buf)?;
        if let Some(negotiation) = self.negotiation {
            negotiation.note(Direction::ToMta, &buf[..count]);
        }
        Ok(count)
    }
}

impl<L: Write> Write for SeenLink<'_, L> {
    fn write(&mut self, buf: &[u8]) -> io::Result<usize> {
        let count = self.link.write(buf)?;
        if let Some(negotiation) = self.negotiation {
            negotiation.note(Direction::ToFilter, &buf[..count]);
        }
        Ok(count)
    }

    fn flush(&mut self) -> io::Result<()> {
        self.link.flush()
    }
}
