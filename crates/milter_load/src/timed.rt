//! What is timed.

use milter_protocol::rank_of;
use milter_wire::Stage;

/// How many kinds of latencies there are.
pub(crate) const KINDS: usize = 11;

/// What is timed: how long it takes until its reply is there.
#[derive(Clone, Copy)]
pub enum Timed {
    /// The negotiation.
    Negotiation,
    /// A command of a stage.
    Command(Stage),
    /// A whole message.
    Message,
}

impl Timed {
    /// All of them, in order.
    pub const ALL: [Timed; KINDS] = [
        Timed::Negotiation,
        Timed::Command(Stage::Connect),
        Timed::Command(Stage::Helo),
        Timed::Command(Stage::Mail),
        Timed::Command(Stage::Rcpt),
        Timed::Command(Stage::DataCmd),
        Timed::Command(Stage::Header),
        Timed::Command(Stage::Eoh),
        Timed::Command(Stage::Body),
        Timed::Command(Stage::Eob),
        Timed::Message,
    ];

    /// Its word. Doesn't allocate.
    pub fn name(self) -> &'static [u8] {
        match self {
            Timed::Negotiation => b"negotiate",
            Timed::Command(stage) => stage.name(),
            Timed::Message => b"message",
        }
    }

    /// Its number in [`Timed::ALL`], from 0. Doesn't allocate.
    pub(crate) fn number(self) -> usize {
        match self {
            Timed::Negotiation => 0,
            Timed::Command(stage) => usize::from(rank_of(stage)),
            Timed::Message => 10,
        }
    }
}
