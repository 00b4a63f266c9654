//! What a mail server makes of a filter's replies, one at a time.

ghost use Rattle.std.specs.Prelude.{◌≡◌, ◌≤◌, ℕ};
ghost use Rattle.milter_message.specs.declared.message.TheConstants.{WEIGHT_MAX};
ghost use Rattle.milter_wire.specs.Tables.{map_ok};
ghost use Rattle.milter_wire.specs.Verdicts.{reply_of, verdict_of};
ghost use Rattle.milter_protocol.specs.declared.answer.Action.TheVariants as received;
ghost use Rattle.milter_mta_outcome.specs.ReceivedReplies as received_reply;

use crate::loss::MtaFault;
use milter_message::{Edit, WEIGHT_MAX};
use milter_protocol::{Action, VERSION_MAX, VERSION_MIN, permits};
use milter_wire::{Actions, Negotiated, Options, Protocol, Reply, Stage, SymLists, Verdict};

/// What was negotiated by the reply to this offer. The faults are `NotAtThisStage` for a reply without options, and
/// else, in this order, `Version` below 2, above 6 or above the offered one, `ActionsNotOffered` also for symbol lists
/// where [`Actions::SETSYMLIST`] was not offered, and `ProtocolNotOffered`. Doesn't allocate. Source: the libmilter
/// callback documentation (xxfi_negotiate).
pub fn on_options(offer: Options, reply: Reply) -> Result<Negotiated, MtaFault>
    ensures { result ≡ received_reply.options_received offer reply }
{
    let Reply::Options { options, lists } = reply else {
        return Err(MtaFault::NotAtThisStage);
    };
    if !is_version_offered(offer.version, options.version) {
        return Err(MtaFault::Version);
    }
    if !is_offered(offer.actions.0, options.actions.0) || !may_have_lists(offer.actions, &lists) {
        return Err(MtaFault::ActionsNotOffered);
    }
    if !is_offered(offer.protocol.0, options.protocol.0) {
        return Err(MtaFault::ProtocolNotOffered);
    }
    Ok(Negotiated { options, lists })
}

/// Whether the version is known, and not above the one that was offered.
fn is_version_offered(offer: u32, version: u32) -> bool
    ensures { result ≡ received_reply.is_version_offered offer version }
{
    VERSION_MIN <= version && version <= VERSION_MAX && version <= offer
}

/// Whether each of these bits was offered.
fn is_offered(offer: u32, bits: u32) -> bool
    ensures { result ≡ received_reply.is_offered offer bits }
{
    offer & bits == bits
}

/// Whether there are no symbol lists, or their action was offered.
fn may_have_lists(offer: Actions, lists: &SymLists) -> bool
    ensures { result ≡ received_reply.may_have_lists offer lists.now }
{
    lists.as_slice().is_empty() || offer.0 & Actions::SETSYMLIST.0 != 0
}

/// What a reply to a command of this stage is, where the edits before it have `weight` bytes. The fault of an edit or
/// progress is `NotAtThisStage` before the end of a message, `EditNotNegotiated` where its action was not negotiated,
/// or `TooManyEdits` where all have more than 16,777,216 bytes with it; that of any other reply is `NotAtThisStage`,
/// where it is no verdict on this stage, or `Skip` where that was not negotiated. Doesn't allocate. Source: the
/// libmilter callback documentation (return values, message modification functions).
pub fn on_reply(
    negotiated: &Negotiated,
    stage: Stage,
    weight: usize,
    reply: Reply,
) -> Result<Action, MtaFault>
    requires { weight ≤ WEIGHT_MAX }
    ensures { result ≡ received_reply.reply_received negotiated.now stage weight reply }
{
    match Edit::from_reply(reply) {
        Ok(edit) => on_edit(negotiated, stage, weight, edit),
        Err(other) => on_other(negotiated, stage, other),
    }
}

/// What the edit is.
fn on_edit(
    negotiated: &Negotiated,
    stage: Stage,
    weight: usize,
    edit: Edit,
) -> Result<Action, MtaFault>
    requires { weight ≤ WEIGHT_MAX }
    ensures { result ≡ received_reply.edit_received negotiated.now stage weight edit }
{
    if stage != Stage::Eob {
        return Err(MtaFault::NotAtThisStage);
    }
    if !permits(negotiated, &edit) {
        return Err(MtaFault::EditNotNegotiated);
    }
    if edit.weight() > WEIGHT_MAX - weight {
        return Err(MtaFault::TooManyEdits);
    }
    Ok(Action::Edit(edit))
}

/// What the reply is that asks for no edit.
fn on_other(negotiated: &Negotiated, stage: Stage, reply: Reply) -> Result<Action, MtaFault>
    ensures { result ≡ received_reply.verdict_received negotiated.now stage (verdict_of reply) }
{
    let Ok(verdict) = Verdict::from_reply(reply) else {
        return Err(MtaFault::NotAtThisStage);
    };
    on_verdict(negotiated, stage, &verdict)?;
    Ok(Action::Verdict(verdict))
}

/// Whether a verdict on a command of this stage is received: as [`on_reply`] of the reply that carries it, whatever
/// edits came before. The fault is `NotAtThisStage`, where it is no verdict on this stage, or `Skip` where that was not
/// negotiated. Doesn't allocate. Source: the libmilter callback documentation (return values).
pub fn on_verdict(negotiated: &Negotiated, stage: Stage, verdict: &Verdict) -> Result<(), MtaFault>
    ensures given { result ≡ received_reply.given_or_fault negotiated.now stage verdict.now }
    ensures reply { (weight : ℕ) →
        received_reply.reply_received negotiated.now stage weight (reply_of verdict.now)
        ≡ map_ok (λ done. received.Verdict verdict.now) result }
{
    if is_given(negotiated, stage, verdict) {
        Ok(())
    } else {
        Err(MtaFault::NotAtThisStage)
    }
}

/// Whether the verdict may be given at the stage, by what was negotiated.
fn is_given(negotiated: &Negotiated, stage: Stage, verdict: &Verdict) -> bool
    ensures { result ≡ received_reply.is_given negotiated.now stage verdict.now }
{
    verdict.is_given_at(stage) && (!matches!(verdict, Verdict::Skip) || may_skip(negotiated))
}

/// Whether skipping was negotiated.
fn may_skip(negotiated: &Negotiated) -> bool
    ensures { result ≡ received_reply.may_skip negotiated.now }
{
    negotiated.options.protocol.0 & Protocol::SKIP.0 != 0
}
