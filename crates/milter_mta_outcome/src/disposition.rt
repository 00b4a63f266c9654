//! What the last verdict on a message makes of it.

ghost use Rattle.std.specs.Prelude.{◌≡◌, All, IfErr, IfOk, OnErr, drop, not};
ghost use Rattle.std.specs.Option.{option_copied};
ghost use Rattle.milter_message.specs.EditReplies as asked;
ghost use Rattle.milter_message.specs.EditedMessage.{edited_message};
ghost use Rattle.milter_wire.specs.Reply.{Fits};
ghost use Rattle.milter_mta_outcome.specs.ActedVerdicts.{is_refused_first, kept, kept_recipients, rcpt_verdict, rcpt_verdicts};
ghost use Rattle.milter_protocol.specs.Verdicts.{is_refusal};
ghost use Rattle.milter_mta_outcome.specs.Outcomes as outcomes;

use crate::acted_verdicts::Acted;
use crate::outcome::{Outcome, Refusal};
use milter_message::{Edit, Held, Message, apply};
use milter_protocol::Answer;
use milter_wire::{Path, Stage, Verdict};
use std::alloc::Global;

/// The message without the recipients that were refused: of the verdicts on recipients the first is on the first
/// recipient, and so on. Doesn't allocate.
pub fn kept_message(message: Message, acted: &[Acted]) -> Message
    ensures { result ≡ kept message acted.now }
{
    let mut parts = message.into_parts();
    remove_refused(&mut parts.recipients, acted);
    Message::from_parts(parts.sender, parts.recipients, parts.headers, parts.body)
}

/// Removes the recipients that were refused.
fn remove_refused(recipients: &mut Vec<Path>, acted: &[Acted])
    ensures { recipients.new.items ≡ kept_recipients recipients.old.items (rcpt_verdicts acted.now) }
{
    let mut index = 0;
    recipients.retain(move |_| {
        let next = next_kept(acted, index);
        index = next.position;
        next.is_kept
    });
}

/// Whether a recipient is kept, and where the verdicts on those after it begin.
#[derive(Clone, Copy)]
struct NextKept {
    is_kept: bool,
    position: usize,
}

/// Whether the first recipient with a verdict from this position on is kept.
fn next_kept(acted: &[Acted], from: usize) -> NextKept
    ensures kept { result.is_kept ≡ not (is_refused_first (rcpt_verdicts (drop from acted.now))) }
    ensures rest { rcpt_verdicts (drop result.position acted.now) ≡ drop 1 (rcpt_verdicts (drop from acted.now)) }
{
    let mut position = from;
    while position < acted.len() {
        let verdict = rcpt_verdict(&acted[position]);
        position += 1;
        if let Some(verdict) = verdict {
            let is_kept = !is_refusal(verdict);
            return NextKept { is_kept, position };
        }
    }
    NextKept {
        is_kept: true,
        position,
    }
}

/// The verdict, where it is one on a recipient.
fn rcpt_verdict(acted: &Acted) -> Option<&Verdict>
    ensures { option_copied result ≡ rcpt_verdict acted.now }
{
    match acted.stage {
        Stage::Rcpt => Some(&acted.verdict),
        _ => None,
    }
}

/// Whether what was asked about is refused: for good, for now, or with a text. Doesn't allocate.
pub fn is_refusal(verdict: &Verdict) -> bool
    ensures { result ≡ is_refusal verdict.now }
{
    matches!(
        verdict,
        Verdict::Reject | Verdict::Tempfail | Verdict::Code(_)
    )
}

/// The message is released as it is.
pub(crate) fn released(message: Message) -> Outcome
    ensures { result ≡ outcomes.released message }
{
    Outcome::Released(Held {
        message,
        quarantine: None,
    })
}

/// What the last answer makes of the message, of which the refused recipients are gone already. Where memory was
/// refused, which is at the end of a message alone, the message comes back.
pub fn outcome_of(
    alloc: Global,
    leading_space: bool,
    stage: Stage,
    answer: Answer,
    message: Message,
) -> Result<Outcome, Message>
    requires { All (λ edit. Fits (asked.reply_of edit)) answer.edits }
    ensures settled { IfOk result (λ settled. settled ≡ outcomes.outcome leading_space stage answer message) }
    ensures refused { IfErr result (λ back. back ≡ message) }
    ensures at_end_alone { OnErr result (stage ≡ Stage.Eob) }
{
    let Answer { edits, verdict } = answer;
    match stage {
        Stage::Eob => outcome_at_end(alloc, leading_space, verdict, edits.into_vec(), message),
        Stage::Connect | Stage::Helo => Ok(outcome_at_connection(&verdict, message)),
        Stage::Rcpt => Ok(at_recipient(verdict, message)),
        _ => Ok(at_other(verdict, message)),
    }
}

/// What a verdict on the client or its greeting makes of each message that is left. Doesn't allocate.
pub fn outcome_at_connection(verdict: &Verdict, message: Message) -> Outcome
    ensures { result ≡ outcomes.at_connection verdict.now message }
{
    match verdict {
        Verdict::Accept => released(message),
        _ => Outcome::RefusedAtConnection,
    }
}

/// What the last verdict on a recipient makes of the message.
fn at_recipient(verdict: Verdict, message: Message) -> Outcome
    ensures { result ≡ outcomes.at_recipient verdict message }
{
    match verdict {
        Verdict::Accept => released(message),
        Verdict::Discard => Outcome::Discarded,
        _ => Outcome::NoRecipients,
    }
}

/// What a verdict in the middle of the message makes of it.
fn at_other(verdict: Verdict, message: Message) -> Outcome
    ensures { result ≡ outcomes.at_other verdict message }
{
    match verdict {
        Verdict::Accept => released(message),
        Verdict::Discard => Outcome::Discarded,
        other => Outcome::Refused(Refusal::of_verdict(other)),
    }
}

/// What the verdict at the end of the message makes of it, with these edits.
fn outcome_at_end(
    alloc: Global,
    leading_space: bool,
    verdict: Verdict,
    edits: Vec<Edit>,
    message: Message,
) -> Result<Outcome, Message>
    requires { All (λ edit. Fits (asked.reply_of edit)) edits.items }
    ensures settled { IfOk result (λ settled.
        settled ≡ outcomes.at_end leading_space verdict edits.items message) }
    ensures refused { IfErr result (λ back. back ≡ message) }
{
    match verdict {
        Verdict::Continue | Verdict::Accept => release(alloc, leading_space, &edits, message),
        Verdict::Discard => Ok(Outcome::Discarded),
        other => Ok(Outcome::Refused(Refusal::of_verdict(other))),
    }
}

/// The message is released with these edits; without any it isn't copied.
fn release(
    alloc: Global,
    leading_space: bool,
    edits: &[Edit],
    message: Message,
) -> Result<Outcome, Message>
    requires { All (λ edit. Fits (asked.reply_of edit)) edits.now }
    ensures released { IfOk result (λ settled.
        settled ≡ Outcome.Released (edited_message leading_space message edits.now)) }
    ensures refused { IfErr result (λ back. back ≡ message) }
{
    if edits.is_empty() {
        return Ok(released(message));
    }
    match apply(alloc, &message, edits, leading_space) {
        Ok(held) => Ok(Outcome::Released(held)),
        Err(_) => Err(message),
    }
}
