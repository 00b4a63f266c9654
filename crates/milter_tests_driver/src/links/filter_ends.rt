//! A filter's end in memory that lets all mail go on.

use crate::links::failing_links::Network;
use milter_filter::{FilterCore, FilterFault, Pass};
use milter_mta_client::{Dial, DialFault};
use std::alloc::Global;
use std::io;
use std::io::{ErrorKind, Read, Write};

/// A filter's end: the bytes of a mail server are written to it, and its replies are read from it.
#[derive(Drop)]
pub struct FilterEnd<'w> {
    network: &'w Network<'w>,
    filter: FilterCore<'w, Pass>,
}

impl Read for FilterEnd<'_> {
    /// Reads of the replies that wait: those to one packet at most, which is one reply.
    fn read(&mut self, buf: &mut [u8]) -> io::Result<usize> {
        let pending = self.filter.pending();
        let len = pending.len().min(buf.len());
        buf[..len].copy_from_slice(&pending[..len]);
        self.filter.sent(len);
        Ok(len)
    }
}

impl Write for FilterEnd<'_> {
    /// Hands the bytes to the filter's end.
    fn write(&mut self, buf: &[u8]) -> io::Result<usize> {
        match self.filter.feed(buf) {
            Ok(taken) => Ok(taken),
            Err(fault) => {
                if fault == FilterFault::NoMemory {
                    self.network.note_out_of_memory();
                }
                Err(io::Error::from(ErrorKind::BrokenPipe))
            }
        }
    }

    fn flush(&mut self) -> io::Result<()> {
        Ok(())
    }
}

/// Makes filter's ends, each of which is a link by itself.
#[derive(Drop)]
pub struct FilterDial<'w> {
    alloc: Global,
    network: &'w Network<'w>,
    policy: &'w Pass,
}

impl<'w> FilterDial<'w> {
    /// One for this network and this policy.
    pub fn new(alloc: Global, network: &'w Network<'w>, policy: &'w Pass) -> Self {
        FilterDial {
            alloc,
            network,
            policy,
        }
    }
}

impl<'w> Dial for FilterDial<'w> {
    type Link = FilterEnd<'w>;

    fn dial(&mut self) -> Result<FilterEnd<'w>, DialFault> {
        match FilterCore::new(self.alloc, self.policy) {
            Ok(filter) => Ok(FilterEnd {
                network: self.network,
                filter,
            }),
            Err(_) => {
                self.network.note_out_of_memory();
                Err(DialFault)
            }
        }
    }
}
