//! What becomes of the messages of a load.

use milter_mta_outcome::Loss;
use milter_wire::{Stage, Verdict};

/// What a filter made of a message. Source: the libmilter callback documentation (return values).
#[derive(Clone, Copy)]
pub enum Settled {
    /// It is delivered, or quarantined.
    Released,
    /// It is taken from the client and thrown away.
    Discarded,
    /// It is refused.
    Refused,
    /// Each of its recipients was refused.
    NoRecipients,
    /// The client's connection was refused.
    RefusedAtConnection,
}

impl Settled {
    /// All of them, in order.
    pub const ALL: [Settled; 5] = [
        Settled::Released,
        Settled::Discarded,
        Settled::Refused,
        Settled::NoRecipients,
        Settled::RefusedAtConnection,
    ];

    /// Its word. Doesn't allocate.
    pub fn name(self) -> &'static [u8] {
        match self {
            Settled::Released => b"released",
            Settled::Discarded => b"discarded",
            Settled::Refused => b"refused",
            Settled::NoRecipients => b"no-recipients",
            Settled::RefusedAtConnection => b"refused-at-connection",
        }
    }

    /// Its number in [`Settled::ALL`], from 0. Doesn't allocate.
    pub(crate) fn number(self) -> usize {
        match self {
            Settled::Released => 0,
            Settled::Discarded => 1,
            Settled::Refused => 2,
            Settled::NoRecipients => 3,
            Settled::RefusedAtConnection => 4,
        }
    }

    /// What the verdict on a command of the stage makes of its message, or of each one of the client, where no more of
    /// it is sent. Doesn't allocate.
    pub(crate) fn of_verdict(stage: Stage, verdict: &Verdict) -> Settled {
        match (stage, verdict) {
            (_, Verdict::Accept) => Settled::Released,
            (Stage::Connect | Stage::Helo, _) => Settled::RefusedAtConnection,
            (_, Verdict::Continue) => Settled::Released,
            (_, Verdict::Discard) => Settled::Discarded,
            _ => Settled::Refused,
        }
    }
}

/// Why a message was settled by default.
#[derive(Clone, Copy)]
pub enum Cause {
    /// The connection broke.
    Reset,
    /// The filter did not reply in time.
    Timeout,
    /// Memory was refused.
    Memory,
    /// The filter sent what can't be taken.
    Fault,
}

impl Cause {
    /// All of them, in order.
    pub const ALL: [Cause; 4] = [Cause::Reset, Cause::Timeout, Cause::Memory, Cause::Fault];

    /// The cause of a loss. Doesn't allocate.
    pub fn of_loss(loss: Loss) -> Cause {
        match loss {
            Loss::Reset => Cause::Reset,
            Loss::Timeout => Cause::Timeout,
            Loss::Memory => Cause::Memory,
            Loss::Fault(_) => Cause::Fault,
        }
    }

    /// Its word. Doesn't allocate.
    pub fn name(self) -> &'static [u8] {
        match self {
            Cause::Reset => b"reset",
            Cause::Timeout => b"timeout",
            Cause::Memory => b"memory",
            Cause::Fault => b"fault",
        }
    }

    /// Its number in [`Cause::ALL`], from 0. Doesn't allocate.
    pub(crate) fn number(self) -> usize {
        match self {
            Cause::Reset => 0,
            Cause::Timeout => 1,
            Cause::Memory => 2,
            Cause::Fault => 3,
        }
    }
}
