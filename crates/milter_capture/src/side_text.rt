//! The lines of the packets that one side sent.

ghost use Rattle.std.specs.Prelude.{◌≡◌};

use crate::connection_text::Elapsed;
use milter_trace::{Direction, TraceForm, put_packet_as};
use milter_wire::{NoMemory, Splitter, WireFault};
use std::alloc::Global;

/// What one side sent, up to a packet that isn't whole, or to a fault.
#[derive(Drop)]
pub(crate) struct SideText {
    alloc: Global,
    form: TraceForm,
    direction: Direction,
    splitter: Splitter,
    is_at_fault: bool,
}

impl SideText {
    /// Of a side that has sent nothing.
    pub(crate) fn new(alloc: Global, form: TraceForm, direction: Direction) -> SideText {
        SideText {
            alloc,
            form,
            direction,
            splitter: Splitter::new(alloc),
            is_at_fault: false,
        }
    }

    /// Appends the lines of the packets that become whole with these bytes. A fault has a line too, and nothing is
    /// printed of what follows it.
    pub(crate) fn put(
        &mut self,
        elapsed: Elapsed,
        bytes: &[u8],
        text: &mut Vec<u8>,
    ) -> Result<(), NoMemory> {
        let mut rest = bytes;
        for _ in 0..bytes.len() {
            if rest.is_empty() || self.is_at_fault {
                return Ok(());
            }
            let taken = self.splitter.feed(rest)?;
            rest = &rest[taken..];
            if let Err(fault) = self.put_next(elapsed, text) {
                self.put_fault(elapsed, fault, text)?;
            }
        }
        Ok(())
    }

    /// Appends the line of the packet that is whole now, if one is.
    fn put_next(&mut self, elapsed: Elapsed, text: &mut Vec<u8>) -> Result<(), WireFault> {
        let (alloc, form, direction) = (self.alloc, self.form, self.direction);
        let Some(packet) = self.splitter.next()? else {
            return Ok(());
        };
        let mut line = Vec::new(alloc);
        put_packet_as(alloc, form, direction, &packet, &mut line)?;
        Ok(put_line(alloc, elapsed, line.as_slice(), text)?)
    }

    /// Appends the line of a fault.
    fn put_fault(
        &mut self,
        elapsed: Elapsed,
        fault: WireFault,
        text: &mut Vec<u8>,
    ) -> Result<(), NoMemory> {
        if let WireFault::NoMemory = fault {
            return Err(NoMemory);
        }
        self.is_at_fault = true;
        let direction = self.direction;
        let line = format!(in self.alloc; "{direction} fault: {fault}\n")?;
        put_line(self.alloc, elapsed, line.as_bytes(), text)
    }

    /// How many bytes are there of a packet that isn't whole.
    pub(crate) fn unread(&self) -> usize {
        if self.is_at_fault {
            0
        } else {
            self.splitter.unread()
        }
    }
}

/// Appends a line with its time.
fn put_line(
    alloc: Global,
    elapsed: Elapsed,
    line: &[u8],
    text: &mut Vec<u8>,
) -> Result<(), NoMemory> {
    let time = format!(in alloc; "{elapsed} ")?;
    text.extend_from_slice(time.as_bytes())?;
    text.extend_from_slice(line)?;
    Ok(())
}
