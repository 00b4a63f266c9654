//! Captures in the form pcapng.

use crate::byte_order::{ByteOrder, at_most};
use crate::fault::CaptureFault;
use crate::link_type::LinkType;
use crate::pcapng_block::{section_order, split_block, time_unit};
use crate::record::{Frame, Record};
use crate::time_unit::TimeUnit;
use std::alloc::Global;

/// The type of a block that begins a section.
const SECTION: u32 = 0x0a0d_0d0a;

/// The type of a block that describes an interface.
const INTERFACE: u32 = 1;

/// The type of a block that is a frame without a time.
const SIMPLE_PACKET: u32 = 3;

/// The type of a block that is a frame.
const ENHANCED_PACKET: u32 = 6;

/// The values of the higher half of a time.
const HALF_VALUES: u64 = 4_294_967_296;

/// An interface of which frames were captured.
#[derive(Clone, Copy)]
struct Interface {
    link: u16,
    /// The most bytes that are captured of a frame; 0 where there is no limit.
    most: u32,
    unit: TimeUnit,
}

/// A frame of an interface, by the interface's number.
#[derive(Clone, Copy)]
struct Packet<'a> {
    interface: u32,
    units: u64,
    bytes: &'a [u8],
}

/// The blocks of a capture, one after another.
#[derive(Drop)]
pub(crate) struct PcapngReader<'a> {
    order: ByteOrder,
    interfaces: Vec<Interface>,
    rest: &'a [u8],
    records: u64,
    /// The time of the last frame that has one.
    time: u64,
}

impl<'a> PcapngReader<'a> {
    /// The blocks of a capture with these bytes; nothing where they don't begin as one.
    pub(crate) fn new(alloc: Global, bytes: &'a [u8]) -> Option<PcapngReader<'a>> {
        let order = section_order(bytes)?;
        Some(PcapngReader {
            order,
            interfaces: Vec::new(alloc),
            rest: bytes,
            records: 0,
            time: 0,
        })
    }

    /// The next block.
    pub(crate) fn next(&mut self) -> Result<Record<'a>, CaptureFault> {
        if self.rest.is_empty() {
            return Ok(Record::End);
        }
        self.records = self.records.saturating_add(1);
        let section = section_order(self.rest);
        if let Some(order) = section {
            self.order = order;
        }
        let (block, rest) = split_block(self.order, self.records, self.rest)?;
        self.rest = rest;
        match block.kind {
            SECTION if section.is_none() => Err(self.bad_record()),
            SECTION => {
                self.interfaces.clear();
                Ok(Record::Other)
            }
            INTERFACE => self.add_interface(block.body),
            SIMPLE_PACKET => self.simple_frame(block.body),
            ENHANCED_PACKET => self.enhanced_frame(block.body),
            _ => Ok(Record::Other),
        }
    }

    fn bad_record(&self) -> CaptureFault {
        CaptureFault::BadRecord(self.records)
    }

    /// Adds the interface that a block with this body describes.
    fn add_interface(&mut self, body: &'a [u8]) -> Result<Record<'a>, CaptureFault> {
        let Some(interface) = interface_of(self.order, body) else {
            return Err(self.bad_record());
        };
        self.interfaces.push(interface)?;
        Ok(Record::Other)
    }

    /// The frame of a block with this body, which has a time.
    fn enhanced_frame(&mut self, body: &'a [u8]) -> Result<Record<'a>, CaptureFault> {
        let Some(packet) = packet_of(self.order, body) else {
            return Err(self.bad_record());
        };
        let interface = self.interface(packet.interface)?;
        self.time = interface.unit.nanoseconds(packet.units);
        self.frame(interface, packet.bytes)
    }

    /// The frame of a block with this body, which has the time of the frame before it.
    fn simple_frame(&mut self, body: &'a [u8]) -> Result<Record<'a>, CaptureFault> {
        let Some((length, bytes)) = self.order.split_word(body) else {
            return Err(self.bad_record());
        };
        let interface = self.interface(0)?;
        let captured = match interface.most {
            0 => length,
            most => length.min(most),
        };
        self.frame(interface, at_most(bytes, captured as usize))
    }

    /// The interface of this number in the section.
    fn interface(&self, number: u32) -> Result<Interface, CaptureFault> {
        match self.interfaces.as_slice().get(number as usize) {
            Some(interface) => Ok(*interface),
            None => Err(self.bad_record()),
        }
    }

    /// A frame of this interface with these bytes.
    fn frame(&self, interface: Interface, bytes: &'a [u8]) -> Result<Record<'a>, CaptureFault> {
        let link_number = u32::from(interface.link);
        match LinkType::of(link_number) {
            Some(link) => Ok(Record::Frame(Frame {
                time: self.time,
                link,
                bytes,
            })),
            None => Err(CaptureFault::LinkType {
                number: self.records,
                link: link_number,
            }),
        }
    }
}

/// The interface that a block with this body describes.
fn interface_of(order: ByteOrder, body: &[u8]) -> Option<Interface> {
    let (link, rest) = order.split_short(body)?;
    let (_, rest) = order.split_short(rest)?;
    let (most, options) = order.split_word(rest)?;
    Some(Interface {
        link,
        most,
        unit: time_unit(order, options),
    })
}

/// The frame of a block with this body.
fn packet_of<'a>(order: ByteOrder, body: &'a [u8]) -> Option<Packet<'a>> {
    let (interface, rest) = order.split_word(body)?;
    let (high, rest) = order.split_word(rest)?;
    let (low, rest) = order.split_word(rest)?;
    let (captured, rest) = order.split_word(rest)?;
    let (_length, rest) = order.split_word(rest)?;
    let (bytes, _) = rest.split_at_checked(captured as usize)?;
    let units = u64::from(high)
        .saturating_mul(HALF_VALUES)
        .saturating_add(u64::from(low));
    Some(Packet {
        interface,
        units,
        bytes,
    })
}
