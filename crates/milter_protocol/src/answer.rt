//! What a filter answers when it is asked.

ghost use Rattle.std.specs.Prelude.{◌≡◌, []};
ghost use Rattle.milter_protocol.specs.Verdicts.{is_final_at};

use milter_message::Edit;
use milter_wire::{List, Stage, Verdict};
use std::alloc::Global;

/// What a filter does with one reply: an edit, or its verdict.
#[derive(Clone, Debug, PartialEq, Eq, Drop)]
pub enum Action {
    /// Asks for a change to the message, or for more time: the verdict is still owed.
    Edit(Edit),
    /// Answers with a verdict.
    Verdict(Verdict),
}

/// The edits that a filter asks for in one answer, in order, from none to as many as it wants. Source: the libmilter
/// callback documentation (message modification functions).
pub type Edits = List<Edit>;

/// A filter's answer to a stage: the changes that it asks for, which come at the end of a message alone, and its
/// verdict. Source: the libmilter callback documentation (xxfi_eom, and return values).
#[derive(Clone, Debug, Drop)]
pub struct Answer {
    /// The edits, in order.
    pub edits: Edits,
    /// The verdict.
    pub verdict: Verdict,
}

impl Answer {
    /// The verdict, without edits. Doesn't allocate.
    pub fn of_verdict(alloc: Global, verdict: Verdict) -> Self
        ensures edits { result.edits ≡ [] }
        ensures verdict { result.verdict ≡ verdict }
    {
        Answer {
            edits: Edits::new(Vec::new(alloc)),
            verdict,
        }
    }
}

/// Whether nothing more of a message is sent after the verdict at the stage: always at the end of the message, at a
/// recipient where the message is taken, and else unless the filter goes on. Doesn't allocate. Source: the libmilter
/// callback documentation (return values).
pub fn is_final_at(stage: Stage, verdict: &Verdict) -> bool
    ensures { result ≡ is_final_at stage verdict.now }
{
    match (stage, verdict) {
        (Stage::Eob, _) => true,
        (Stage::Rcpt, Verdict::Accept | Verdict::Discard) => true,
        (Stage::Rcpt, _) => false,
        (_, Verdict::Continue | Verdict::Skip) => false,
        _ => true,
    }
}
