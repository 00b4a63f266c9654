//! The numbers of what a mail server's end answers.

ghost use Rattle.std.specs.Prelude.{◌≡◌, ◌≢◌, OnErr, OnOk};
ghost use Rattle.milter_c_objects.specs.MtaNumbers.{call_result, event_number, loss_status, mta_fault_status, verdict_number, verdict_text, want_number};

use crate::status::{
    ACCEPT, CALL_BUSY, CALL_CLOSED, CALL_DOES_NOT_FIT, CALL_NO_MEMORY, CALL_OUT_OF_ORDER, CODE,
    CONTINUE, DISCARD, EVENT_IN_PROGRESS, EVENT_NEGOTIATED, EVENT_NOTHING, EVENT_VERDICT,
    LOSS_ACTIONS_NOT_OFFERED, LOSS_EARLY, LOSS_EDIT_NOT_NEGOTIATED, LOSS_NO_MEMORY,
    LOSS_NOT_AT_THIS_STAGE, LOSS_PROTOCOL_NOT_OFFERED, LOSS_RESET, LOSS_TIMEOUT,
    LOSS_TOO_MANY_EDITS, LOSS_VERSION, LOSS_WIRE, OK, OUTCOME_LEFT_OUT, OUTCOME_NO_REPLY,
    OUTCOME_VERDICT_DUE, REJECT, SKIP, TEMPFAIL, WANT_COMMAND, WANT_NOTHING, WANT_RECEIVE,
    WANT_SEND, WRONG_KIND,
};
use milter_mta_connection::{CallFault, CallOutcome, FilterEvent, Want};
use milter_mta_outcome::{Loss, MtaFault};
use milter_wire::Verdict;

/// The status of a call. The number of the outcome is written where the call isn't refused. Doesn't allocate.
pub fn call_status(done: Result<CallOutcome, CallFault>, outcome: &mut u32) -> i32
    ensures done { call_result result outcome.new ≡ done }
    ensures ok { OnOk done (result ≡ OK) }
    ensures refused { OnErr done (result ≢ OK) }
    ensures unwritten { result ≢ OK → outcome.new ≡ outcome.old }
    ensures kind { result ≢ WRONG_KIND }
{
    match done {
        Ok(CallOutcome::LeftOut) => {
            *outcome = OUTCOME_LEFT_OUT;
            OK
        }
        Ok(CallOutcome::NoReply) => {
            *outcome = OUTCOME_NO_REPLY;
            OK
        }
        Ok(CallOutcome::VerdictDue) => {
            *outcome = OUTCOME_VERDICT_DUE;
            OK
        }
        Err(CallFault::Closed) => CALL_CLOSED,
        Err(CallFault::Busy) => CALL_BUSY,
        Err(CallFault::OutOfOrder) => CALL_OUT_OF_ORDER,
        Err(CallFault::DoesNotFit) => CALL_DOES_NOT_FIT,
        Err(CallFault::NoMemory) => CALL_NO_MEMORY,
    }
}

/// The number of what is to be done next. Doesn't allocate.
pub fn want_number(want: Want) -> i32
    ensures { result ≡ want_number want }
{
    match want {
        Want::Send => WANT_SEND,
        Want::Receive => WANT_RECEIVE,
        Want::Command => WANT_COMMAND,
        Want::Nothing => WANT_NOTHING,
    }
}

/// The number of an event. Doesn't allocate.
pub fn event_number(event: &FilterEvent) -> i32
    ensures { result ≡ event_number event.now }
{
    match event {
        FilterEvent::Nothing => EVENT_NOTHING,
        FilterEvent::InProgress => EVENT_IN_PROGRESS,
        FilterEvent::Negotiated => EVENT_NEGOTIATED,
        FilterEvent::Verdict(_) => EVENT_VERDICT,
    }
}

/// The number of a verdict. Doesn't allocate.
pub fn verdict_number(verdict: &Verdict) -> u32
    ensures { result ≡ verdict_number verdict.now }
{
    match verdict {
        Verdict::Continue => CONTINUE,
        Verdict::Accept => ACCEPT,
        Verdict::Reject => REJECT,
        Verdict::Tempfail => TEMPFAIL,
        Verdict::Discard => DISCARD,
        Verdict::Skip => SKIP,
        Verdict::Code(_) => CODE,
    }
}

/// The text of a verdict that is a code, else none. Doesn't allocate.
pub fn verdict_text(verdict: &Verdict) -> &[u8]
    ensures { result.now ≡ verdict_text verdict.now }
{
    match verdict {
        Verdict::Code(text) => text.as_slice(),
        _ => &[],
    }
}

/// The status of a filter that was lost, or wasn't. Doesn't allocate.
pub fn loss_status(loss: Option<Loss>) -> i32
    ensures { result ≡ loss_status loss }
{
    match loss {
        None => OK,
        Some(Loss::Reset) => LOSS_RESET,
        Some(Loss::Timeout) => LOSS_TIMEOUT,
        Some(Loss::Memory) => LOSS_NO_MEMORY,
        Some(Loss::Fault(fault)) => mta_fault_status(fault),
    }
}

/// The status of a filter that sent what can't be taken.
fn mta_fault_status(fault: MtaFault) -> i32
    ensures { result ≡ mta_fault_status fault }
{
    match fault {
        MtaFault::Wire(_) => LOSS_WIRE,
        MtaFault::Version => LOSS_VERSION,
        MtaFault::ActionsNotOffered => LOSS_ACTIONS_NOT_OFFERED,
        MtaFault::ProtocolNotOffered => LOSS_PROTOCOL_NOT_OFFERED,
        MtaFault::NotAtThisStage => LOSS_NOT_AT_THIS_STAGE,
        MtaFault::EditNotNegotiated => LOSS_EDIT_NOT_NEGOTIATED,
        MtaFault::TooManyEdits => LOSS_TOO_MANY_EDITS,
        MtaFault::Early => LOSS_EARLY,
    }
}
