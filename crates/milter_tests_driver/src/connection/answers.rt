//! What is printed of calls, of pieces, and of a connection.

use crate::printed::print_line;
use crate::texts::text_of;
use anyhow::bail;
use milter_mta_connection::{CallFault, CallOutcome, Fed, FilterEvent, MtaConnection, Phase, Want};
use milter_mta_outcome::Loss;
use milter_wire::Verdict;

/// The words for what came of a call.
fn outcome_words(outcome: CallOutcome) -> &'static str {
    match outcome {
        CallOutcome::LeftOut => "left out",
        CallOutcome::NoReply => "no reply",
        CallOutcome::VerdictDue => "verdict due",
    }
}

/// Prints what a call answers.
pub fn print_answer(
    rt: &HostRuntime,
    answer: Result<CallOutcome, CallFault>,
) -> anyhow::Result<()> {
    match answer {
        Ok(outcome) => print_line(rt, outcome_words(outcome)),
        Err(fault) => Ok(println!(rt; "{fault}")?),
    }
}

/// Prints a verdict.
fn print_verdict(rt: &HostRuntime, verdict: &Verdict) -> anyhow::Result<()> {
    let name = text_of(verdict.name());
    match verdict {
        Verdict::Code(text) => Ok(print!(rt; "verdict {name} {}", text_of(text.as_slice()))?),
        _ => Ok(print!(rt; "verdict {name}")?),
    }
}

/// Prints what was negotiated.
fn print_negotiated(rt: &HostRuntime, connection: &MtaConnection) -> anyhow::Result<()> {
    let Some(negotiated) = connection.negotiated() else {
        bail!("nothing was negotiated");
    };
    let version = negotiated.options.version;
    let actions = negotiated.options.actions.0;
    let protocol = negotiated.options.protocol.0;
    Ok(print!(rt; "negotiated {version:x} {actions:x} {protocol:x}")?)
}

/// Prints an event.
fn print_event(
    rt: &HostRuntime,
    connection: &MtaConnection,
    event: &FilterEvent,
) -> anyhow::Result<()> {
    match event {
        FilterEvent::Nothing => Ok(print!(rt; "nothing")?),
        FilterEvent::InProgress => Ok(print!(rt; "in progress")?),
        FilterEvent::Negotiated => print_negotiated(rt, connection),
        FilterEvent::Verdict(verdict) => print_verdict(rt, verdict),
    }
}

/// Prints what came of a piece.
pub fn print_fed(rt: &HostRuntime, connection: &MtaConnection, fed: &Fed) -> anyhow::Result<()> {
    print_event(rt, connection, &fed.event)?;
    match fed.loss {
        Some(loss) => Ok(println!(rt; " loss {loss}")?),
        None => print_line(rt, ""),
    }
}

/// Ends the program where memory was refused for a piece. The connection has to be closed then.
pub fn check_memory(connection: &MtaConnection, fed: &Fed) -> anyhow::Result<()> {
    if fed.loss != Some(Loss::Memory) {
        return Ok(());
    }
    if connection.want() != Want::Nothing || connection.phase() != Phase::Closed {
        bail!("a lost filter leaves the connection open");
    }
    bail!("out of memory");
}

/// The word for what is wanted.
pub fn want_word(want: Want) -> &'static str {
    match want {
        Want::Send => "send",
        Want::Receive => "receive",
        Want::Command => "command",
        Want::Nothing => "nothing",
    }
}

/// The words for where a connection is.
pub fn phase_words(phase: Phase) -> &'static str {
    match phase {
        Phase::NoMessage => "no message",
        Phase::InMessage => "in message",
        Phase::Skipping => "skipping",
        Phase::MessageOver => "message over",
        Phase::ClientOver => "client over",
        Phase::Closed => "closed",
    }
}
