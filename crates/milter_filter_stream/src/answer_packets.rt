//! The packets of a filter's answers.

ghost use Rattle.std.specs.Prelude.{◌≡◌, ◌++◌, All, OnErr, OnOk, Some, if◌then◌else◌, map};
ghost use Rattle.std.specs.List.{filter, flat_map};
ghost use Rattle.milter_message.specs.EditReplies as asked;
ghost use Rattle.milter_wire.specs.declared.reply.Reply.TheVariants as Reply;
ghost use Rattle.milter_wire.specs.Reply.{Fits, encoding};
ghost use Rattle.milter_wire.specs.Verdicts as given;
ghost use Rattle.milter_fields.specs.AppendedBytes.{Extends};
ghost use Rattle.milter_protocol.specs.Permitted.{is_permitted, permitted, permitted_verdict};
ghost use Rattle.milter_protocol.specs.Replies.{replies_of_answer};

use milter_message::Edit;
use milter_protocol::{Answer, permits, permitted_verdict};
use milter_wire::codes::{SMFIR_CONTINUE, SMFIR_PROGRESS};
use milter_wire::{Negotiated, NoMemory, Verdict};
use std::alloc::Global;

/// The packet of `Reply::Continue`.
const CONTINUE: [u8; 5] = [0, 0, 0, 1, SMFIR_CONTINUE];

/// The packet of `Reply::Progress`.
const PROGRESS: [u8; 5] = [0, 0, 0, 1, SMFIR_PROGRESS];

/// Appends the packets of the answer: of its edits that were negotiated, and of its verdict. After `NoMemory`, `out` is
/// as it was. Source: mfdef.h.
#[inline(always)]
pub fn put_answer(
    alloc: Global,
    negotiated: &Negotiated,
    answer: Answer,
    out: &mut Vec<u8>,
) -> Result<(), NoMemory>
    requires edits { All (λ edit. Fits (asked.reply_of edit)) answer.edits }
    requires verdict { Fits (given.reply_of answer.verdict) }
    ensures ok { OnOk result (out.new.items
        ≡ out.old.items ++ flat_map encoding (replies_of_answer (Some (permitted negotiated.now answer)))) }
    ensures err { OnErr result (out.new.items ≡ out.old.items) }
{
    let Answer { edits, verdict } = answer;
    if edits.as_slice().is_empty() {
        return put_verdict(alloc, negotiated, verdict, out);
    }
    let start = out.len();
    let mut written = put_edits(alloc, negotiated, edits.into_vec(), out);
    if written.is_ok() {
        written = put_verdict(alloc, negotiated, verdict, out);
    }
    if written.is_err() {
        out.truncate(start);
    }
    written
}

/// Appends the packets of the edits that were negotiated.
fn put_edits(
    alloc: Global,
    negotiated: &Negotiated,
    edits: Vec<Edit>,
    out: &mut Vec<u8>,
) -> Result<(), NoMemory>
    requires { All (λ edit. Fits (asked.reply_of edit)) edits.items }
    ensures ok { OnOk result (out.new.items
        ≡ out.old.items ++ flat_map encoding (map asked.reply_of (filter (is_permitted negotiated.now) edits.items))) }
    ensures extends { Extends out.old.items out.new.items }
{
    for edit in edits {
        put_edit(alloc, negotiated, edit, out)?;
    }
    Ok(())
}

/// Appends the packet of the edit, if it was negotiated.
fn put_edit(
    alloc: Global,
    negotiated: &Negotiated,
    edit: Edit,
    out: &mut Vec<u8>,
) -> Result<(), NoMemory>
    requires { Fits (asked.reply_of edit) }
    ensures ok { OnOk result (out.new.items
        ≡ (if is_permitted negotiated.now edit then out.old.items ++ encoding (asked.reply_of edit)
        else out.old.items)) }
    ensures err { OnErr result (out.new.items ≡ out.old.items) }
{
    if !permits(negotiated, &edit) {
        return Ok(());
    }
    edit.into_reply().encode(alloc, out)
}

/// Appends the packet of the verdict, as it may be sent.
fn put_verdict(
    alloc: Global,
    negotiated: &Negotiated,
    verdict: Verdict,
    out: &mut Vec<u8>,
) -> Result<(), NoMemory>
    requires { Fits (given.reply_of verdict) }
    ensures ok { OnOk result (out.new.items
        ≡ out.old.items ++ encoding (given.reply_of (permitted_verdict negotiated.now verdict))) }
    ensures err { OnErr result (out.new.items ≡ out.old.items) }
{
    if let Verdict::Continue = verdict {
        return put_continue(out);
    }
    permitted_verdict(negotiated, verdict)
        .into_reply()
        .encode(alloc, out)
}

/// Appends the packet that lets the message go on, which is most of what a filter sends. After `NoMemory`, `out` is as
/// it was. Source: mfdef.h (SMFIR_CONTINUE).
#[tactic(auto, unfolding(milter_fields::specs::Number::number))]
pub fn put_continue(out: &mut Vec<u8>) -> Result<(), NoMemory>
    ensures ok { OnOk result (out.new.items ≡ out.old.items ++ encoding Reply.Continue) }
    ensures err { OnErr result (out.new.items ≡ out.old.items) }
{
    out.extend_from_slice(&CONTINUE)?;
    Ok(())
}

/// Appends the packet that reports progress: the mail server waits anew for the answer. After `NoMemory`, `out` is as
/// it was. Source: mfdef.h (SMFIR_PROGRESS).
#[tactic(auto, unfolding(milter_fields::specs::Number::number))]
pub fn put_progress(out: &mut Vec<u8>) -> Result<(), NoMemory>
    ensures ok { OnOk result (out.new.items ≡ out.old.items ++ encoding Reply.Progress) }
    ensures err { OnErr result (out.new.items ≡ out.old.items) }
{
    out.extend_from_slice(&PROGRESS)?;
    Ok(())
}
