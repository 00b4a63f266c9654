//! What a filter decides when it is asked.

ghost use Rattle.std.specs.Prelude.{◌≡◌, ◌↔◌, IfOk, IfSome, Some};
ghost use Rattle.milter_wire.specs.Payload.{PayloadFits, payload_bytes};
ghost use Rattle.milter_wire.specs.Reply.{FieldsFit, payload_of, reply_in};
ghost use Rattle.milter_wire.specs.Verdicts.{given_at, reply_of, verdict_in, verdict_name, verdict_of};

use crate::codes::{
    SMFIR_ACCEPT, SMFIR_CONTINUE, SMFIR_DISCARD, SMFIR_REJECT, SMFIR_SKIP, SMFIR_TEMPFAIL,
};
use crate::payload::PayloadRef;
use crate::reply::Reply;
use crate::stage::Stage;
use milter_fields::{NoMemory, Text};
use std::alloc::Global;

/// A filter's answer to a stage. Source: mfdef.h (SMFIR_CONTINUE and those after it), and the libmilter callback
/// documentation (return values).
#[derive(Clone, Debug, PartialEq, Eq, Drop)]
pub enum Verdict {
    /// The MTA goes on.
    Continue,
    /// The message, or at the first two stages the connection, is taken without asking further.
    Accept,
    /// What was asked about is refused for good.
    Reject,
    /// What was asked about is refused for now.
    Tempfail,
    /// The message is taken and thrown away.
    Discard,
    /// The MTA sends no further chunk of this body.
    Skip,
    /// What was asked about is refused with this text, which has the form of [`Reply::Code`].
    Code(Text),
}

impl Verdict {
    /// The word of the verdict in text files, without the text of a code. Doesn't allocate.
    pub fn name(&self) -> &'static [u8]
        ensures { result.now ≡ verdict_name self.now }
    {
        match self {
            Verdict::Continue => b"continue",
            Verdict::Accept => b"accept",
            Verdict::Reject => b"reject",
            Verdict::Tempfail => b"tempfail",
            Verdict::Discard => b"discard",
            Verdict::Skip => b"skip",
            Verdict::Code(_) => b"code",
        }
    }

    /// Whether the verdict is an answer to the stage: only a chunk of the body can be skipped, and nothing can be
    /// thrown away before there is a message. Doesn't allocate. Source: the libmilter callback documentation (return
    /// values).
    pub fn is_given_at(&self, stage: Stage) -> bool
        ensures { result ≡ given_at self.now stage }
    {
        match self {
            Verdict::Skip => stage == Stage::Body,
            Verdict::Discard => stage != Stage::Connect && stage != Stage::Helo,
            _ => true,
        }
    }

    /// The reply that carries the verdict. Doesn't allocate. Source: mfdef.h.
    pub fn into_reply(self) -> Reply
        ensures { result ≡ reply_of self }
    {
        match self {
            Verdict::Continue => Reply::Continue,
            Verdict::Accept => Reply::Accept,
            Verdict::Reject => Reply::Reject,
            Verdict::Tempfail => Reply::Tempfail,
            Verdict::Discard => Reply::Discard,
            Verdict::Skip => Reply::Skip,
            Verdict::Code(text) => Reply::Code(text),
        }
    }

    /// The payload of that reply, by its layout. Doesn't allocate.
    pub fn payload(&self) -> PayloadRef<'_>
        ensures bytes { payload_bytes result ≡ payload_of (reply_of self.now) }
        ensures fits { PayloadFits result ↔ FieldsFit (reply_of self.now) }
    {
        match self {
            Verdict::Code(text) => PayloadRef::Code(text),
            _ => PayloadRef::Empty,
        }
    }

    /// The verdict that a reply carries. A reply that carries none comes back: options, an edit of the message, or
    /// progress. Doesn't allocate. Source: mfdef.h.
    pub fn from_reply(reply: Reply) -> Result<Verdict, Reply>
        ensures { result ≡ verdict_of reply }
    {
        match reply {
            Reply::Continue => Ok(Verdict::Continue),
            Reply::Accept => Ok(Verdict::Accept),
            Reply::Reject => Ok(Verdict::Reject),
            Reply::Tempfail => Ok(Verdict::Tempfail),
            Reply::Discard => Ok(Verdict::Discard),
            Reply::Skip => Ok(Verdict::Skip),
            Reply::Code(text) => Ok(Verdict::Code(text)),
            other => Err(other),
        }
    }

    /// The verdict of a packet without a payload, by its code. None where there is a payload, as with [`Reply::Code`],
    /// and where the code is another reply's or no reply's. Doesn't allocate. Source: mfdef.h.
    #[tactic(auto, unfolding(crate::specs::Reply::reply_in))]
    pub fn of_packet(code: u8, payload: &[u8]) -> Option<Verdict>
        ensures verdict { result ≡ verdict_in code payload.now }
        ensures reply { IfSome result (λ v. reply_in code payload.now ≡ Some (reply_of v)) }
    {
        if !payload.is_empty() {
            return None;
        }
        match code {
            SMFIR_ACCEPT => Some(Verdict::Accept),
            SMFIR_CONTINUE => Some(Verdict::Continue),
            SMFIR_DISCARD => Some(Verdict::Discard),
            SMFIR_REJECT => Some(Verdict::Reject),
            SMFIR_SKIP => Some(Verdict::Skip),
            SMFIR_TEMPFAIL => Some(Verdict::Tempfail),
            _ => None,
        }
    }

    /// The same verdict. The text of a code is copied once.
    pub fn copy(&self, alloc: Global) -> Result<Verdict, NoMemory>
        ensures { IfOk result (λ copy. copy ≡ self.now) }
    {
        Ok(match self {
            Verdict::Continue => Verdict::Continue,
            Verdict::Accept => Verdict::Accept,
            Verdict::Reject => Verdict::Reject,
            Verdict::Tempfail => Verdict::Tempfail,
            Verdict::Discard => Verdict::Discard,
            Verdict::Skip => Verdict::Skip,
            Verdict::Code(text) => Verdict::Code(Text::copy_of(alloc, text.as_slice())?),
        })
    }
}
