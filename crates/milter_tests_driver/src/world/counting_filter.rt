//! A filter that counts how often it is asked.

ghost use Rattle.milter_protocol.specs.Pass.{pass};
ghost use Rattle.milter_filter_stream.specs.PassLaw.{pass_is_lawful};

use milter_filter::{Answer, Pass, Policy, Seen};
use milter_wire::{NoMemory, Options, Stage, SymList};
use std::alloc::Global;
use std::cell::Cell;

/// Lets all mail go on, as [`Pass`] does, and counts how often it is asked.
#[derive(Drop)]
pub struct Counting {
    asked: Cell<u64>,
}

impl Counting {
    /// It wasn't asked yet.
    pub fn new() -> Self {
        Counting {
            asked: Cell::new(0),
        }
    }

    /// How often it was asked.
    pub fn asked(&self) -> u64 {
        self.asked.get()
    }
}

impl Policy for Counting {
    ghost behavior = { λ _. pass };

    ghost lawful = { λ _. pass_is_lawful };

    fn wants(&self) -> Options {
        Pass.wants()
    }

    fn lists(&self) -> &[SymList] {
        &[]
    }

    fn decide(&self, alloc: Global, at: Stage, seen: &Seen) -> Result<Answer, NoMemory> {
        self.asked.set(self.asked.get().wrapping_add(1));
        Pass.decide(alloc, at, seen)
    }
}
