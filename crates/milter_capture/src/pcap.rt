//! Captures in the form pcap.

use crate::byte_order::ByteOrder;
use crate::fault::CaptureFault;
use crate::link_type::LinkType;
use crate::record::{Frame, Record};
use crate::time_unit::SECOND;

/// The bits of the number after which a link type isn't read: they say how a frame ends.
const LINK_MASK: u32 = 0xffff;

/// How the records of a capture are read.
#[derive(Clone, Copy)]
struct Form {
    order: ByteOrder,
    /// The nanoseconds of a unit in which parts of a second are counted.
    part: u64,
}

/// The records of a capture, one after another.
#[derive(Clone, Copy)]
pub(crate) struct PcapReader<'a> {
    form: Form,
    link: u32,
    rest: &'a [u8],
    records: u64,
}

impl<'a> PcapReader<'a> {
    /// The records of a capture with these bytes; nothing where they don't begin as one.
    pub(crate) fn new(bytes: &'a [u8]) -> Option<PcapReader<'a>> {
        let (form, rest) = split_form(bytes)?;
        // The version, the time zone, the accuracy of times, and the most bytes of a frame.
        let (_, rest) = rest.split_at_checked(16)?;
        let (link, rest) = form.order.split_word(rest)?;
        Some(PcapReader {
            form,
            link: link & LINK_MASK,
            rest,
            records: 0,
        })
    }

    /// The next record.
    pub(crate) fn next(&mut self) -> Result<Record<'a>, CaptureFault> {
        if self.rest.is_empty() {
            return Ok(Record::End);
        }
        self.records = self.records.saturating_add(1);
        let number = self.records;
        let Some(link) = LinkType::of(self.link) else {
            return Err(CaptureFault::LinkType {
                number,
                link: self.link,
            });
        };
        match split_frame(self.form, link, self.rest) {
            Some((frame, rest)) => {
                self.rest = rest;
                Ok(Record::Frame(frame))
            }
            None => Err(CaptureFault::Truncated(number)),
        }
    }
}

/// How records are read after these bytes, and what follows of them.
fn split_form(bytes: &[u8]) -> Option<(Form, &[u8])> {
    match bytes {
        [0xd4, 0xc3, 0xb2, 0xa1, rest @ ..] => Some((form_of(ByteOrder::Little, 1_000), rest)),
        [0xa1, 0xb2, 0xc3, 0xd4, rest @ ..] => Some((form_of(ByteOrder::Big, 1_000), rest)),
        [0x4d, 0x3c, 0xb2, 0xa1, rest @ ..] => Some((form_of(ByteOrder::Little, 1), rest)),
        [0xa1, 0xb2, 0x3c, 0x4d, rest @ ..] => Some((form_of(ByteOrder::Big, 1), rest)),
        _ => None,
    }
}

fn form_of(order: ByteOrder, part: u64) -> Form {
    Form { order, part }
}

/// The frame of the first record, and what follows it; nothing where they end within it.
fn split_frame<'a>(form: Form, link: LinkType, bytes: &'a [u8]) -> Option<(Frame<'a>, &'a [u8])> {
    let (seconds, rest) = form.order.split_word(bytes)?;
    let (parts, rest) = form.order.split_word(rest)?;
    let (captured, rest) = form.order.split_word(rest)?;
    let (_length, rest) = form.order.split_word(rest)?;
    let (bytes, rest) = rest.split_at_checked(captured as usize)?;
    let whole = u64::from(seconds).saturating_mul(SECOND);
    let time = whole.saturating_add(u64::from(parts).saturating_mul(form.part));
    Some((Frame { time, link, bytes }, rest))
}
