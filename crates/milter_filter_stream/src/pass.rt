//! A policy that lets all mail go on.

ghost use Rattle.milter_protocol.specs.Pass.{pass};
ghost use Rattle.milter_filter_stream.specs.PassLaw.{pass_is_lawful};

use crate::policy::Policy;
use crate::seen::Seen;
use milter_protocol::{Answer, VERSION_MAX};
use milter_wire::{Actions, NoMemory, Options, Protocol, Stage, SymList, Verdict};
use std::alloc::Global;

/// The policy that wants version 6 without any bit, and answers `Continue` to all, without edits.
#[derive(Clone, Copy, Debug, PartialEq, Eq)]
pub struct Pass;

impl Policy for Pass {
    ghost behavior = { λ _. pass };

    ghost lawful = { λ _. pass_is_lawful };

    fn wants(&self) -> Options {
        Options {
            version: VERSION_MAX,
            actions: Actions(0),
            protocol: Protocol(0),
        }
    }

    fn lists(&self) -> &[SymList] {
        &[]
    }

    fn decide(&self, alloc: Global, _at: Stage, _seen: &Seen) -> Result<Answer, NoMemory> {
        Ok(Answer::of_verdict(alloc, Verdict::Continue))
    }
}
