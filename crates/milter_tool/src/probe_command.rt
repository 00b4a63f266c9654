//! The subcommand `probe`.

use crate::input_files::session_at;
use milter_cli::{Failure, ToolError, output_error};
use milter_command_line::{Address, ProbeRequest, UsageError};
use milter_mail::Session;
use milter_play::{Connect, TcpDial, UnixDial, WaitingDial};
use milter_probe::{Kind, Settings, probe};
use std::io;
use std::time::Duration;

/// Tries how robust a filter is, and prints what breaks.
pub(crate) fn probe_filter<'x>(
    rt: &HostRuntime,
    asked: &ProbeRequest<'x>,
) -> Result<(), Failure<'x>> {
    let Some(address) = Address::parse(asked.address) else {
        return Err(Failure::from(ToolError::Usage(UsageError::BadAddress)));
    };
    let only = match only_kind(asked.only) {
        Ok(only) => only,
        Err(error) => return Err(Failure::from(ToolError::Usage(error))),
    };
    match session_at(rt, asked.session) {
        Ok(session) => probe_at(rt, asked, address, only, &session),
        Err(error) => Err(Failure::from(error)),
    }
}

/// Tries the filter at this address with this session, by the trials of one kind where there is one.
fn probe_at<'x>(
    rt: &HostRuntime,
    asked: &ProbeRequest<'x>,
    address: Address<'x>,
    only: Option<Kind>,
    session: &Session,
) -> Result<(), Failure<'x>> {
    let limit = Duration::from_secs(u64::from(asked.timeout));
    let settings = Settings {
        only,
        seed: asked.seed,
        wait: limit,
    };
    match address {
        Address::Inet { port, host } => {
            probe_over(
                rt,
                asked,
                session,
                settings,
                TcpDial::new(rt, port, host, limit),
            )
        }
        Address::Unix { path } => {
            probe_over(rt, asked, session, settings, UnixDial::new(rt, path, limit))
        }
    }
}

/// The kind of trials with this name, where there is a name.
fn only_kind(name: Option<&str>) -> Result<Option<Kind>, UsageError> {
    let Some(name) = name else {
        return Ok(None);
    };
    match Kind::from_name(name.as_bytes()) {
        Some(kind) => Ok(Some(kind)),
        None => Err(UsageError::BadTrials),
    }
}

/// Tries the filter over the connections that `dial` makes. The error says that something broke, as was printed, or
/// that there is no connection at all.
fn probe_over<'x, D: Connect + Drop>(
    rt: &HostRuntime,
    asked: &ProbeRequest<'x>,
    session: &Session,
    settings: Settings,
    dial: D,
) -> Result<(), Failure<'x>> {
    let mut dial = WaitingDial::new(rt, dial, 0);
    let Ok(first) = dial.connect_first() else {
        return Err(Failure::of_socket(ToolError::Connect, asked.address, dial.refusal()));
    };
    let writer = &mut io::writer(rt);
    match probe(rt, first, &mut dial, session, settings, writer) {
        Ok(true) => Ok(()),
        Ok(false) => Err(Failure::from(ToolError::Findings)),
        Err(fault) => Err(Failure::from(output_error(fault))),
    }
}
