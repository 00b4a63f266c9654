//! The subcommand `play`.

use crate::input_files::{open, rules_at, session_at};
use crate::session_reports::{end_reports, expected_at, kept_error};
use milter_cli::{Failure, InputFile, RuleUse, ToolError, output_error};
use milter_command_line::{Offer, PlayRequest};
use milter_mail::Session;
use milter_mta::Config;
use milter_play::{load_events, play_run, schedule_run};
use milter_rules::Rules;
use milter_world::Event;
use std::io::{self, Write};

/// Plays the session of a file to a filter in memory, and prints what becomes of its messages; only where that isn't
/// what is expected, if something is.
pub(crate) fn play_in_memory<'x>(
    rt: &HostRuntime,
    asked: &PlayRequest<'x>,
) -> Result<(), Failure<'x>> {
    let offer = match Offer::parse(asked.actions, asked.protocol) {
        Ok(offer) => offer,
        Err(error) => return Err(Failure::from(ToolError::Usage(error))),
    };
    let config = Config::new(offer.actions, offer.protocol, asked.loss).unwrap();
    let usage = RuleUse {
        ignore_case: asked.ignore_case,
        least_stages: asked.least_stages,
        names_messages: false,
    };
    let rules = rules_at(rt, asked.rules, usage)?;
    let played = play_with_rules(rt, config, asked, &rules);
    drop(rules);
    played
}

/// The same with these rules.
fn play_with_rules<'x>(
    rt: &HostRuntime,
    config: Config,
    asked: &PlayRequest<'x>,
    rules: &Rules,
) -> Result<(), Failure<'x>> {
    if asked.expect.is_none() {
        return Ok(play_by_rules(rt, config, asked, rules, &mut io::writer(rt))?);
    }
    let expected = expected_at(rt, asked.expect)?;
    match reports_found(rt, config, asked, rules) {
        Ok(found) => end_reports(rt, found, expected),
        Err(error) => {
            drop(expected);
            Err(Failure::from(error))
        }
    }
}

/// The reports of a session that is played in memory.
fn reports_found(
    rt: &HostRuntime,
    config: Config,
    asked: &PlayRequest<'_>,
    rules: &Rules,
) -> Result<Vec<u8>, ToolError> {
    let mut found = Vec::new(rt.alloc());
    match play_by_rules(rt, config, asked, rules, &mut found) {
        Ok(()) => Ok(found),
        Err(error) => {
            drop(found);
            Err(kept_error(error))
        }
    }
}

/// Plays the session of a file to a filter with these rules.
fn play_by_rules<W: Write>(
    rt: &HostRuntime,
    config: Config,
    asked: &PlayRequest<'_>,
    rules: &Rules,
    writer: &mut W,
) -> Result<(), ToolError> {
    let session = session_at(rt, asked.session)?;
    let Some(path) = asked.events else {
        return match play_run(rt.alloc(), config, session, rules, writer) {
            Ok(()) => Ok(()),
            Err(fault) => Err(output_error(fault)),
        };
    };
    match events_at(rt, path) {
        Ok(events) => play_by_events(rt, config, session, rules, events.as_slice(), writer),
        Err(error) => {
            drop(session);
            Err(error)
        }
    }
}

/// Plays a session to a filter with these rules while these events happen.
fn play_by_events<W: Write>(
    rt: &HostRuntime,
    config: Config,
    session: Session,
    rules: &Rules,
    events: &[Event],
    writer: &mut W,
) -> Result<(), ToolError> {
    match schedule_run(rt.alloc(), config, session, rules, events, writer) {
        Ok(()) => Ok(()),
        Err(fault) => Err(output_error(fault)),
    }
}

/// The events of the file at this path.
fn events_at(rt: &HostRuntime, path: &str) -> Result<Vec<Event>, ToolError> {
    let file = open(rt, InputFile::Events, path)?;
    load_events(rt.alloc(), file).map_err(ToolError::File)
}
