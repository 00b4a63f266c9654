//! Whether an answer keeps the rules.

ghost use Rattle.std.specs.Prelude.{◌≡◌, ◌≤◌, All, IfErr, IfOk, OnOk};
ghost use Rattle.std.specs.List.{sum_by};
ghost use Rattle.milter_wire.specs.Reply.{Fits};
ghost use Rattle.milter_message.specs.EditReplies.{reply_of, weight_of};
ghost use Rattle.milter_message.specs.declared.message.TheConstants.{WEIGHT_MAX};
ghost use Rattle.milter_protocol.specs.Lawful.{AnswerFits};
ghost use Rattle.milter_wire.specs.Verdicts as verdicts;
ghost use Rattle.milter_filter_stream.specs.AnswerFaults.{Breaks, EditBreaks, EditsBreak, VerdictBreaks};

use crate::answer_fault::AnswerFault;
use milter_message::{Edit, WEIGHT_MAX};
use milter_protocol::Answer;
use milter_wire::{PAYLOAD_MAX, Stage, Verdict};

/// Whether the answer keeps the rules of the stage, and else a rule that it breaks: edits come at the end of a message
/// alone, `Skip` at a chunk of a body, `Discard` not before there is a message; each text has no NUL, each packet has
/// room, and all edits have at most 16,777,216 bytes of packets. Doesn't allocate.
pub fn check_answer(stage: Stage, answer: &Answer) -> Result<(), AnswerFault>
    ensures fits { OnOk result (AnswerFits stage answer.now) }
    ensures breaks { IfErr result (λ fault. Breaks stage answer.now fault) }
{
    if stage != Stage::Eob && !answer.edits.as_slice().is_empty() {
        return Err(AnswerFault::EditsBeforeEnd);
    }
    if !answer.verdict.is_given_at(stage) {
        return Err(AnswerFault::NotGivenThere);
    }
    match check_verdict(&answer.verdict) {
        Ok(()) => check_edits(answer.edits.as_slice()),
        Err(fault) => Err(fault),
    }
}

/// Whether the reply of the verdict fits a packet.
fn check_verdict(verdict: &Verdict) -> Result<(), AnswerFault>
    ensures fits { OnOk result (Fits (verdicts.reply_of verdict.now)) }
    ensures breaks { IfErr result (λ fault. VerdictBreaks verdict.now fault) }
{
    let payload = verdict.payload();
    if !payload.fits() {
        return Err(AnswerFault::BadText);
    }
    if payload.len() > PAYLOAD_MAX {
        return Err(AnswerFault::TooLong);
    }
    Ok(())
}

/// Whether the replies of the edits fit packets, and all of them a message.
fn check_edits(edits: &[Edit]) -> Result<(), AnswerFault>
    ensures fit { OnOk result (All (λ edit. Fits (reply_of edit)) edits.now) }
    ensures weight { OnOk result (sum_by weight_of edits.now ≤ WEIGHT_MAX) }
    ensures breaks { IfErr result (λ fault. EditsBreak edits.now fault) }
{
    let mut room = WEIGHT_MAX;
    for edit in edits {
        let weight = match check_edit(edit) {
            Ok(weight) => weight,
            Err(fault) => return Err(fault),
        };
        if weight > room {
            return Err(AnswerFault::TooMuch);
        }
        room -= weight;
    }
    Ok(())
}

/// The bytes of the packet of an edit, where it fits one.
fn check_edit(edit: &Edit) -> Result<usize, AnswerFault>
    ensures fits { OnOk result (Fits (reply_of edit.now)) }
    ensures weight { IfOk result (λ weight. weight ≡ weight_of edit.now) }
    ensures breaks { IfErr result (λ fault. EditBreaks edit.now fault) }
{
    let payload = edit.payload();
    if !payload.fits() {
        return Err(AnswerFault::BadText);
    }
    if payload.len() > PAYLOAD_MAX {
        return Err(AnswerFault::TooLong);
    }
    Ok(edit.weight())
}
