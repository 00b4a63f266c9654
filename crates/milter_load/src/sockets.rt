//! What a load begins with.

use crate::load_error::LoadError;
use crate::slot::Slot;
use mio::Poll;
use std::alloc::Global;
use std::time::Instant;

/// What waits for sockets, since when, and the places of connections.
#[derive(Drop)]
pub(crate) struct Sockets {
    /// What waits for sockets.
    pub(crate) poll: Poll,
    /// When the load begins.
    pub(crate) begin: Instant,
    /// The places.
    pub(crate) slots: Vec<Slot>,
    /// The places whose connections await a message.
    pub(crate) idle: Vec<usize>,
}

impl Sockets {
    /// Those of so many connections, none of which is made.
    pub(crate) fn new(rt: &HostRuntime, alloc: Global, at_once: usize) -> Result<Self, LoadError> {
        let begin = Instant::now(rt)?;
        let poll = Poll::new(rt)?;
        match places_of(alloc, at_once) {
            Ok((slots, idle)) => Ok(Sockets {
                poll,
                begin,
                slots,
                idle,
            }),
            Err(error) => {
                drop(poll);
                Err(error)
            }
        }
    }
}

/// So many places, and room for the numbers of all.
fn places_of(alloc: Global, at_once: usize) -> Result<(Vec<Slot>, Vec<usize>), LoadError> {
    let slots = slots_of(alloc, at_once)?;
    match Vec::with_capacity(alloc, at_once) {
        Ok(idle) => Ok((slots, idle)),
        Err(error) => {
            drop(slots);
            Err(LoadError::from(error))
        }
    }
}

/// So many places.
fn slots_of(alloc: Global, at_once: usize) -> Result<Vec<Slot>, LoadError> {
    let mut slots = Vec::with_capacity(alloc, at_once)?;
    for _ in 0..at_once {
        if slots.push(Slot::new()).is_err() {
            return Err(LoadError::NoMemory);
        }
    }
    Ok(slots)
}
