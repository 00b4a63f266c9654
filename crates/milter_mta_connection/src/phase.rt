//! Where a connection is, in the order of commands.

ghost use Rattle.std.specs.Prelude.{◌≡◌};
ghost use Rattle.std.specs.Option.{option_copied};
ghost use Rattle.milter_protocol.specs.Commands.{is_end_by};
ghost use Rattle.milter_mta_connection.specs.Connection as connection;
ghost use Rattle.milter_mta_connection.specs.Connection.{is_unknown_sent, rank_aborted, rank_after, rank_after_verdict, rank_without_message};

use milter_protocol::{is_final_at, may_follow, rank_of};
use milter_wire::{Negotiated, Protocol, Stage, Verdict};

/// The rank of the greeting: no message is under way after it.
const GREETING_RANK: u8 = 2;

/// The first version that has commands which the mail server doesn't know. Source: Sendmail's milter.c.
const UNKNOWN_VERSION_MIN: u32 = 3;

/// Where a connection is, in the order of commands.
#[derive(Clone, Copy, Debug, PartialEq, Eq)]
pub enum Phase {
    /// No message is under way.
    NoMessage,
    /// A message is under way.
    InMessage,
    /// The same, and the rest of its body isn't sent.
    Skipping,
    /// A verdict ended the dialogue about the message before its end: what follows of it is left out. An abort is due.
    MessageOver,
    /// A verdict on the client or its greeting ended the dialogue: whatever follows is left out.
    ClientOver,
    /// The connection has ended, or the filter was lost.
    Closed,
}

impl Phase {
    /// Whether a command of the stage comes in order, after the stage of this rank.
    pub(crate) fn takes(self, last_rank: u8, stage: Stage) -> bool
        ensures { result ≡ connection.is_in_order self last_rank stage }
    {
        match self {
            Phase::NoMessage => begins(stage) && may_follow(last_rank, stage),
            Phase::InMessage | Phase::Skipping => may_follow(last_rank, stage),
            Phase::MessageOver => !is_of_client(stage),
            Phase::ClientOver => true,
            Phase::Closed => false,
        }
    }

    /// Whether no packet of the stage is sent any more.
    fn is_over(self, stage: Stage) -> bool
        ensures { result ≡ connection.is_over self stage }
    {
        match self {
            Phase::ClientOver => true,
            Phase::MessageOver => stage != Stage::Mail,
            Phase::Skipping => stage == Stage::Body,
            _ => false,
        }
    }

    /// Whether nothing is sent of a command of the stage, by what was negotiated.
    pub(crate) fn leaves_out(self, negotiated: Option<&Negotiated>, stage: Stage) -> bool
        ensures { result ≡ connection.is_left_out (option_copied negotiated.entry) self stage }
    {
        match negotiated {
            Some(negotiated) => self.is_over(stage) || !negotiated.is_sent(stage),
            None => true,
        }
    }

    /// Whether nothing is sent of a command that the mail server doesn't know, by what was negotiated.
    pub(crate) fn leaves_unknown_out(self, negotiated: Option<&Negotiated>) -> bool
        ensures { result ≡ connection.is_unknown_left_out (option_copied negotiated.entry) self }
    {
        match negotiated {
            Some(negotiated) => {
                matches!(self, Phase::ClientOver | Phase::MessageOver)
                    || !is_unknown_sent(negotiated)
            }
            None => true,
        }
    }

    /// Whether a message is under way that no verdict ended.
    pub(crate) fn is_under_way(self) -> bool
        ensures { result ≡ connection.is_under_way self }
    {
        matches!(self, Phase::InMessage | Phase::Skipping)
    }

    /// Whether a message was sent in part.
    pub(crate) fn is_due_abort(self) -> bool
        ensures { result ≡ connection.is_due_abort self }
    {
        matches!(
            self,
            Phase::InMessage | Phase::Skipping | Phase::MessageOver
        )
    }

    /// After a command of the stage.
    pub(crate) fn after(self, stage: Stage) -> Phase
        ensures { result ≡ connection.phase_after self stage }
    {
        match (self, stage) {
            (Phase::ClientOver, _) => Phase::ClientOver,
            (_, Stage::Mail) => Phase::InMessage,
            (phase, _) => phase,
        }
    }

    /// After a message was given up.
    pub(crate) fn after_abort(self) -> Phase
        ensures { result ≡ connection.phase_aborted self }
    {
        match self {
            Phase::ClientOver => Phase::ClientOver,
            _ => Phase::NoMessage,
        }
    }

    /// After a verdict on a command of the stage.
    pub(crate) fn after_verdict(self, stage: Stage, verdict: &Verdict) -> Phase
        ensures { result ≡ connection.phase_after_verdict stage verdict.now self }
    {
        if is_final_at(stage, verdict) {
            return over(stage);
        }
        match verdict {
            Verdict::Skip => Phase::Skipping,
            _ => self,
        }
    }
}

/// Whether the stage begins a connection or a message.
fn begins(stage: Stage) -> bool
    ensures { result ≡ connection.begins stage }
{
    matches!(stage, Stage::Connect | Stage::Helo | Stage::Mail)
}

/// Whether the stage is the client or its greeting.
fn is_of_client(stage: Stage) -> bool
    ensures { result ≡ connection.is_of_client stage }
{
    matches!(stage, Stage::Connect | Stage::Helo)
}

/// After a verdict at the stage that ends what it is on.
fn over(stage: Stage) -> Phase
    ensures { result ≡ connection.phase_over stage }
{
    match stage {
        Stage::Connect | Stage::Helo => Phase::ClientOver,
        Stage::Eob => Phase::NoMessage,
        _ => Phase::MessageOver,
    }
}

/// Whether commands that the mail server doesn't know are sent, by what was negotiated.
fn is_unknown_sent(negotiated: &Negotiated) -> bool
    ensures { result ≡ is_unknown_sent negotiated.now }
{
    negotiated.options.protocol.0 & Protocol::NOUNKNOWN.0 == 0
        && negotiated.options.version >= UNKNOWN_VERSION_MIN
}

/// The rank of the last stage after a command of the stage.
pub(crate) fn rank_after(phase: Phase, last_rank: u8, stage: Stage) -> u8
    ensures { result ≡ rank_after phase last_rank stage }
{
    match phase {
        Phase::ClientOver => last_rank,
        Phase::MessageOver if stage != Stage::Mail => last_rank,
        _ => rank_of(stage),
    }
}

/// The rank of the last stage where no message is under way.
fn rank_without_message(last_rank: u8) -> u8
    ensures { result ≡ rank_without_message last_rank }
{
    last_rank.min(GREETING_RANK)
}

/// The rank of the last stage after a message was given up.
pub(crate) fn rank_aborted(phase: Phase, last_rank: u8) -> u8
    ensures { result ≡ rank_aborted phase last_rank }
{
    if phase.is_due_abort() {
        rank_without_message(last_rank)
    } else {
        last_rank
    }
}

/// The rank of the last stage after a verdict on a command of the stage.
pub(crate) fn rank_after_verdict(stage: Stage, verdict: &Verdict, last_rank: u8) -> u8
    ensures { result ≡ rank_after_verdict stage verdict.now last_rank }
{
    if ends_message(stage, verdict) {
        rank_without_message(last_rank)
    } else {
        last_rank
    }
}

/// Whether a message ends by the verdict: before its sender there is none.
fn ends_message(stage: Stage, verdict: &Verdict) -> bool
    ensures { result ≡ is_end_by stage verdict.now }
{
    match stage {
        Stage::Connect | Stage::Helo => false,
        _ => is_final_at(stage, verdict),
    }
}
