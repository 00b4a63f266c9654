//! What becomes of a message.

ghost use Rattle.std.specs.Prelude.{◌≡◌};
ghost use Rattle.milter_mta_outcome.specs.Refusals.{refusal_by, refusal_of, refusal_text};

use crate::acted_verdicts::ActedVerdicts;
use crate::loss::By;
use milter_message::Held;
use milter_wire::{Text, Verdict};

/// The reply to a client whose message is refused for now.
const TEMPFAIL_TEXT: &[u8] = b"451 4.3.2 Please try again later";
/// The reply to a client whose message is refused for good.
const REJECT_TEXT: &[u8] = b"550 5.7.1 Command rejected";

/// How a message is refused. Source: the libmilter callback documentation (return values, smfi_setreply).
#[derive(Clone, Debug, PartialEq, Eq, Drop)]
pub enum Refusal {
    /// For good.
    Reject,
    /// For now.
    Tempfail,
    /// With this text, which begins with a reply code.
    Code(Text),
}

impl Refusal {
    /// The reply for the client: `550 5.7.1 Command rejected`, `451 4.3.2 Please try again later`, or the text of the
    /// code. Doesn't allocate.
    pub fn text(&self) -> &[u8]
        ensures { result.now ≡ refusal_text self.now }
    {
        match self {
            Refusal::Reject => REJECT_TEXT,
            Refusal::Tempfail => TEMPFAIL_TEXT,
            Refusal::Code(text) => text.as_slice(),
        }
    }

    /// The refusal by a verdict, where it refuses what was asked about: `Reject`, `Tempfail`, or a text. Doesn't
    /// allocate. Source: the libmilter callback documentation (return values).
    pub fn from_verdict(verdict: Verdict) -> Option<Self>
        ensures { result ≡ refusal_by verdict }
    {
        match verdict {
            Verdict::Reject => Some(Refusal::Reject),
            Verdict::Tempfail => Some(Refusal::Tempfail),
            Verdict::Code(text) => Some(Refusal::Code(text)),
            _ => None,
        }
    }

    /// The refusal by a verdict that refuses; by any other it is `Reject`. Doesn't allocate.
    pub(crate) fn of_verdict(verdict: Verdict) -> Self
        ensures { result ≡ refusal_of verdict }
    {
        match verdict {
            Verdict::Code(text) => Refusal::Code(text),
            Verdict::Tempfail => Refusal::Tempfail,
            _ => Refusal::Reject,
        }
    }
}

/// What becomes of a message. Source: the libmilter callback documentation (return values).
#[derive(Debug, Drop)]
pub enum Outcome {
    /// It is delivered, or quarantined, as it is here.
    Released(Held),
    /// It is taken from the client and thrown away.
    Discarded,
    /// It is refused.
    Refused(Refusal),
    /// Each of its recipients was refused.
    NoRecipients,
    /// The client's connection was refused, and its messages with it.
    RefusedAtConnection,
}

/// What became of one message, and why.
#[derive(Debug, Drop)]
pub struct Report {
    /// The verdicts that were acted on, in order: those on the client and its greeting first.
    pub acted: ActedVerdicts,
    /// What became of the message.
    pub outcome: Outcome,
    /// What settled it.
    pub settled_by: By,
}
