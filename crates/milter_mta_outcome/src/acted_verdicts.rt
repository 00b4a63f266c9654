//! Verdicts as they are acted on, each with its number.

ghost use Rattle.std.specs.Prelude.{◌≡◌, ◌++◌, ◌∷◌, ◌||◌, [], IfOk, List, OnErr, OnOk, not};
ghost use Rattle.std.specs.List.{list_all};
ghost use Rattle.std.specs.Option.{option_copied};
ghost use Rattle.milter_mta_outcome.specs.declared.acted_verdicts.Acted.{Acted as ActedValue};
ghost use Rattle.milter_protocol.specs.Verdicts.{is_refusal};
ghost use Rattle.milter_mta_outcome.specs.ActedVerdicts.{rcpt_verdicts};
ghost use Rattle.milter_mta_outcome.specs.TransactionVerdicts.{is_of_connection, is_rcpt_stage, last_verdict, number_after, on_connection, with_verdict};

use crate::disposition::is_refusal;
use milter_wire::{List, NoMemory, Stage, Verdict};
use std::alloc::Global;

/// A verdict that was acted on.
#[derive(Clone, Debug, PartialEq, Eq, Drop)]
pub struct Acted {
    /// The stage that it was the answer to.
    pub stage: Stage,
    /// Which of the message's commands of this stage it was the answer to, counted from 1.
    pub nth: usize,
    /// The verdict.
    pub verdict: Verdict,
}

/// The verdicts that were acted on for a message, in order: those on the client and its greeting first.
pub type ActedVerdicts = List<Acted>;

/// Whether a verdict at the stage is on the client or its greeting.
fn is_of_connection(stage: Stage) -> bool
    ensures { result ≡ is_of_connection stage }
{
    matches!(stage, Stage::Connect | Stage::Helo)
}

/// A copy of the verdicts on the client and its greeting, with which each message of the connection begins. The copies
/// are put in `room`; where memory is refused it comes back with some of them.
pub fn begin_acted(
    alloc: Global,
    room: Vec<Acted>,
    acted: &[Acted],
) -> Result<ActedVerdicts, Vec<Acted>>
    requires { room.items ≡ [] }
    ensures { IfOk result (λ opened. opened ≡ on_connection acted.now) }
{
    let mut room = room;
    for last in acted {
        if is_of_connection(last.stage) && push_copy(alloc, &mut room, last).is_err() {
            return Err(room);
        }
    }
    Ok(ActedVerdicts::new(room))
}

/// A copy of the verdicts, in `room`; where memory is refused it comes back with some of them.
pub fn copy_acted(
    alloc: Global,
    room: Vec<Acted>,
    acted: &[Acted],
) -> Result<ActedVerdicts, Vec<Acted>>
    requires { room.items ≡ [] }
    ensures { IfOk result (λ copies. copies ≡ acted.now) }
{
    let mut room = room;
    for last in acted {
        if push_copy(alloc, &mut room, last).is_err() {
            return Err(room);
        }
    }
    Ok(ActedVerdicts::new(room))
}

/// Adds a copy of a verdict.
fn push_copy(alloc: Global, room: &mut Vec<Acted>, acted: &Acted) -> Result<(), NoMemory>
    ensures { OnOk result (room.new.items ≡ room.old.items ++ acted.now ∷ []) }
{
    let verdict = acted.verdict.copy(alloc)?;
    room.push(Acted {
        stage: acted.stage,
        nth: acted.nth,
        verdict,
    })?;
    Ok(())
}

/// The number of the next verdict at the stage. More than a number counts is refused memory.
fn number_after(stage: Stage, last: Option<&Acted>) -> Result<usize, NoMemory>
    ensures { IfOk result (λ nth. nth ≡ number_after stage (option_copied last.entry)) }
{
    match last {
        Some(last) if last.stage == stage => last.nth.checked_add(1).ok_or(NoMemory),
        _ => Ok(1),
    }
}

/// Acts on a verdict at the stage. After `NoMemory` the verdicts are as they were.
pub(crate) fn act(acted: &mut ActedVerdicts, stage: Stage, verdict: Verdict) -> Result<(), NoMemory>
    ensures ok { OnOk result (acted.new ≡ with_verdict stage verdict acted.old) }
    ensures err { OnErr result (acted.new ≡ acted.old) }
{
    let nth = number_after(stage, acted.as_slice().last())?;
    acted.push(Acted {
        stage,
        nth,
        verdict,
    })
}

/// Whether the verdict, where it is one on a recipient, refuses it.
fn is_refused(acted: &Acted) -> bool
    ensures { result ≡ (not (is_rcpt_stage acted.now.stage) || is_refusal acted.now.verdict) }
{
    acted.stage != Stage::Rcpt || is_refusal(&acted.verdict)
}

/// The verdicts without the last one, which is taken back. Doesn't allocate.
pub fn without_last(acted: ActedVerdicts) -> ActedVerdicts
    ensures { (before : List ActedValue) (last : ActedValue) → acted ≡ before ++ last ∷ [] → result ≡ before }
{
    let mut verdicts = acted.into_vec();
    drop(verdicts.pop());
    ActedVerdicts::new(verdicts)
}

/// Whether each verdict on a recipient refuses it.
pub(crate) fn are_refused(acted: &[Acted]) -> bool
    ensures { result ≡ list_all is_refusal (rcpt_verdicts acted.now) }
{
    for last in acted {
        if !is_refused(last) {
            return false;
        }
    }
    true
}
