//! The trials of a filter, one after another.

use crate::breakage::{Broken, When, reference_line, trial_line};
use crate::kind::Kind;
use crate::reference::{OFFER, Reference, is_lost};
use crate::session_end::send_session;
use crate::tally::{has_broken, note, tally_lines};
use crate::trial::{Trial, chosen, trials};
use milter_mail::Session;
use milter_mta_client::Dial;
use milter_text::{TextFault, write_text};
use std::alloc::Global;
use std::io::Write;
use std::rt::Clock;
use std::time::Duration;

/// How a filter is tried.
#[derive(Clone, Copy, Debug)]
pub struct Settings {
    /// The kind of the trials; all where it is none.
    pub only: Option<Kind>,
    /// By what packets are mutated.
    pub seed: u32,
    /// For how long a filter that was lost is waited for.
    pub wait: Duration,
}

/// How a trial went.
#[derive(Clone, Copy, PartialEq, Eq)]
enum Tried {
    /// Nothing broke.
    Well,
    /// Something broke.
    Broke,
    /// Something broke, and the session isn't answered any more.
    Gone,
}

/// Sends a session to a filter over a connection, makes the trials of the conversation over those that `dial` makes,
/// with the session plainly after each, and writes a line for each thing that broke, and at the end a line for each
/// kind of trials. Where the session is then not answered for as long as the filter is waited for, no more trials are
/// made. Where the session isn't answered to its end at first, one line alone says that. The result says whether all
/// went well. The error is that of the lines: they were not all written, or memory was refused.
pub fn probe<R: Clock + AllocGlobal, D: Dial, W: Write>(
    rt: &R,
    first: D::Link,
    dial: &mut D,
    session: &Session,
    settings: Settings,
    output: &mut W,
) -> Result<bool, TextFault> {
    let alloc = rt.alloc();
    let sent = send_session(alloc, first, OFFER, session)?;
    if let Some(broken) = sent.broken {
        let line = reference_line(alloc, broken)?;
        write_text(output, line.as_slice())?;
        return Ok(false);
    }
    let reference = Reference {
        alloc,
        session,
        exchanges: sent.exchanges.as_slice(),
    };
    try_all(rt, reference, settings, dial, output)
}

/// Makes the trials, and writes the lines.
fn try_all<R: Clock, D: Dial, W: Write>(
    clock: &R,
    reference: Reference<'_>,
    settings: Settings,
    dial: &mut D,
    output: &mut W,
) -> Result<bool, TextFault> {
    let alloc = reference.alloc;
    let made = chosen(trials(alloc, reference.exchanges)?, settings.only);
    let mut tallies = Vec::new(alloc);
    for trial in &made {
        let tried = try_one(clock, reference, settings, dial, *trial, output)?;
        note(&mut tallies, trial.kind, tried != Tried::Well)?;
        if tried == Tried::Gone {
            break;
        }
    }
    let lines = tally_lines(alloc, tallies.as_slice())?;
    write_text(output, lines.as_slice())?;
    Ok(!has_broken(tallies.as_slice()))
}

/// Makes a trial and sends the session after it, and writes what broke.
fn try_one<R: Clock, D: Dial, W: Write>(
    clock: &R,
    reference: Reference<'_>,
    settings: Settings,
    dial: &mut D,
    trial: Trial,
    output: &mut W,
) -> Result<Tried, TextFault> {
    let alloc = reference.alloc;
    let inside = reference.play(dial, trial, settings.seed)?;
    write_broken(alloc, trial, When::In, inside, output)?;
    let mut after = inside;
    if inside != Some(Broken::NoConnection) {
        after = reference.play_plainly(dial)?;
        write_broken(alloc, trial, When::After, after, output)?;
    }
    if is_lost(after) && !reference.wait(clock, dial, settings.wait)? {
        return Ok(Tried::Gone);
    }
    if inside.is_some() || after.is_some() {
        return Ok(Tried::Broke);
    }
    Ok(Tried::Well)
}

/// Writes the line of what broke.
fn write_broken<W: Write>(
    alloc: Global,
    trial: Trial,
    when: When,
    broken: Option<Broken>,
    output: &mut W,
) -> Result<(), TextFault> {
    let Some(broken) = broken else {
        return Ok(());
    };
    let line = trial_line(alloc, trial, when, broken)?;
    write_text(output, line.as_slice())
}
