//! Links that fail by a script.

use crate::links::script::{Failed, Failure, Script, Way};
use milter_mta_client::{Dial, DialFault};
use std::cell::Cell;
use std::io;
use std::io::{Read, Write};

/// Counts a call, and answers its number.
fn count(calls: &Cell<usize>) -> usize {
    let number = calls.get().saturating_add(1);
    calls.set(number);
    number
}

/// How the call of this number fails, where it does.
fn failure_of(failed: &[Failed], number: usize) -> Option<Failure> {
    for calls in failed {
        if calls.span.has(number) {
            return Some(calls.failure);
        }
    }
    None
}

/// What is known of all links: what fails on them, the calls that were made, and whether a filter's end was refused
/// memory.
#[derive(Drop)]
pub struct Network<'s> {
    script: &'s Script,
    dials: Cell<usize>,
    reads: Cell<usize>,
    writes: Cell<usize>,
    is_out_of_memory: Cell<bool>,
}

impl<'s> Network<'s> {
    /// No call was made.
    pub fn new(script: &'s Script) -> Self {
        Network {
            script,
            dials: Cell::new(0),
            reads: Cell::new(0),
            writes: Cell::new(0),
            is_out_of_memory: Cell::new(false),
        }
    }

    /// Over what links go.
    pub fn way(&self) -> Way {
        self.script.way
    }

    /// How often it was dialled.
    pub fn dials(&self) -> usize {
        self.dials.get()
    }

    /// Whether a filter's end was refused memory.
    pub fn is_out_of_memory(&self) -> bool {
        self.is_out_of_memory.get()
    }

    /// Notes that a filter's end was refused memory.
    pub fn note_out_of_memory(&self) {
        self.is_out_of_memory.set(true);
    }

    /// Whether the dial of this number fails.
    fn fails(&self, number: usize) -> bool {
        for span in &self.script.dials {
            if span.has(number) {
                return true;
            }
        }
        false
    }
}

/// A link of which calls fail.
#[derive(Drop)]
pub struct FailingLink<'w, L> {
    network: &'w Network<'w>,
    link: L,
}

impl<L: Read> Read for FailingLink<'_, L> {
    fn read(&mut self, buf: &mut [u8]) -> io::Result<usize> {
        let network = self.network;
        if let Some(failure) = failure_of(&network.script.reads, count(&network.reads)) {
            return failure.answer();
        }
        if network.script.is_closed {
            return Ok(0);
        }
        let len = buf.len().min(network.script.read_max);
        self.link.read(&mut buf[..len])
    }
}

impl<L: Write> Write for FailingLink<'_, L> {
    fn write(&mut self, buf: &[u8]) -> io::Result<usize> {
        let network = self.network;
        if let Some(failure) = failure_of(&network.script.writes, count(&network.writes)) {
            return failure.answer();
        }
        let len = buf.len().min(network.script.write_max);
        if network.script.is_closed {
            return Ok(len);
        }
        self.link.write(&buf[..len])
    }

    fn flush(&mut self) -> io::Result<()> {
        Ok(())
    }
}

/// Makes links that fail of those that another one makes.
#[derive(Drop)]
pub struct FailingDial<'w, D> {
    network: &'w Network<'w>,
    dial: D,
}

impl<'w, D> FailingDial<'w, D> {
    /// One for this network, over the links of `dial`.
    pub fn new(network: &'w Network<'w>, dial: D) -> Self {
        FailingDial { network, dial }
    }
}

impl<'w, D: Dial> Dial for FailingDial<'w, D> {
    type Link = FailingLink<'w, D::Link>;

    fn dial(&mut self) -> Result<FailingLink<'w, D::Link>, DialFault> {
        if self.network.fails(count(&self.network.dials)) {
            return Err(DialFault);
        }
        let link = self.dial.dial()?;
        Ok(FailingLink {
            network: self.network,
            link,
        })
    }
}
