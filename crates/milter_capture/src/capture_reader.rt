//! The records of a capture in either form.

use crate::fault::CaptureFault;
use crate::pcap::PcapReader;
use crate::pcapng::PcapngReader;
use crate::record::Record;
use std::alloc::Global;

/// The records of a capture, one after another.
#[derive(Drop)]
pub struct CaptureReader<'a> {
    form: Form<'a>,
}

/// The records of a capture in either form.
#[derive(Drop)]
enum Form<'a> {
    Pcap(PcapReader<'a>),
    Pcapng(PcapngReader<'a>),
}

impl<'a> CaptureReader<'a> {
    /// The records of the capture with these bytes; the fault is that it is none.
    pub fn new(alloc: Global, bytes: &'a [u8]) -> Result<CaptureReader<'a>, CaptureFault> {
        if let Some(reader) = PcapReader::new(bytes) {
            let form = Form::Pcap(reader);
            return Ok(CaptureReader { form });
        }
        match PcapngReader::new(alloc, bytes) {
            Some(reader) => Ok(CaptureReader {
                form: Form::Pcapng(reader),
            }),
            None => Err(CaptureFault::NotCapture),
        }
    }

    /// The next record. After a fault, but for refused memory, there is no other one to be read.
    pub fn next(&mut self) -> Result<Record<'a>, CaptureFault> {
        match &mut self.form {
            Form::Pcap(reader) => reader.next(),
            Form::Pcapng(reader) => reader.next(),
        }
    }
}
