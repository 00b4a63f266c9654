//! The subcommand `load`.

use crate::input_files::session_at;
use milter_cli::{Failure, ToolError, output_error};
use milter_command_line::{Address, LoadRequest, Target as Filter};
use milter_load::{LoadError, ReportForm, Settings, Target, Totals, run_load, write_report};
use milter_mail::Session;
use milter_mta::{Config, OnLoss};
use std::io::{self, ErrorKind, Stderr, Write};

/// After how many seconds a load ends, where neither seconds nor messages are asked for.
const SECONDS: u32 = 10;

/// Puts the load on a filter that is asked for, and prints what came of it. How far it is is written to `errors` where
/// that is a terminal.
pub(crate) fn put_load<'x>(
    rt: &HostRuntime,
    asked: &LoadRequest<'x>,
    is_terminal: bool,
    errors: &mut Stderr,
) -> Result<(), Failure<'x>> {
    let filter = match Filter::parse(asked.address, None, None) {
        Ok(filter) => filter,
        Err(error) => return Err(Failure::from(ToolError::Usage(error))),
    };
    let config = Config::new(
        filter.offer.actions,
        filter.offer.protocol,
        OnLoss::Tempfail,
    )
    .unwrap();
    match session_at(rt, asked.session) {
        Ok(session) => put_session(
            rt,
            asked,
            filter.address,
            &config,
            &session,
            is_terminal,
            errors,
        ),
        Err(error) => Err(Failure::from(error)),
    }
}

/// The same of this session, on the filter at this address, by a mail server with this configuration.
fn put_session<'x>(
    rt: &HostRuntime,
    asked: &LoadRequest<'x>,
    address: Address<'x>,
    config: &Config,
    session: &Session,
    is_terminal: bool,
    errors: &mut Stderr,
) -> Result<(), Failure<'x>> {
    let target = match target_of(rt, address) {
        Ok(target) => target,
        Err(kind) => return Err(not_connected(asked, kind)),
    };
    let settings = settings_of(asked, is_terminal);
    let ended = run_load(
        rt,
        rt.alloc(),
        settings,
        config.offer(),
        target,
        session,
        errors,
    );
    if is_terminal {
        let _ = errors.write_all(b"\n");
    }
    match ended {
        Ok(totals) => Ok(print_totals(rt, asked, &totals)?),
        Err(LoadError::Connect(kind)) => Err(not_connected(asked, kind)),
        Err(LoadError::Wait) => Err(Failure::from(ToolError::Listen)),
        Err(LoadError::NoMemory) => Err(Failure::from(ToolError::NoMemory)),
    }
}

/// What is asked of the load.
fn settings_of(asked: &LoadRequest<'_>, is_terminal: bool) -> Settings {
    Settings {
        at_once: asked.at_once as usize,
        seconds: match (asked.seconds, asked.messages) {
            (0, 0) => SECONDS,
            (seconds, _) => seconds,
        },
        messages: u64::from(asked.messages),
        rate: asked.rate,
        timeout: asked.timeout,
        reports_progress: is_terminal,
    }
}

/// The filter at this address, whose host is looked up; or why it wasn't found.
pub(crate) fn target_of<'x>(
    rt: &HostRuntime,
    address: Address<'x>,
) -> Result<Target<'x>, ErrorKind> {
    match address {
        Address::Inet { port, host } => {
            Target::of_host(rt, rt.alloc(), host, port).map_err(|error| error.kind())
        }
        Address::Unix { path } => Ok(Target::Unix(path)),
    }
}

/// No connection was ever made, for this reason.
fn not_connected<'x>(asked: &LoadRequest<'x>, kind: ErrorKind) -> Failure<'x> {
    match kind {
        ErrorKind::OutOfMemory => Failure::from(ToolError::NoMemory),
        kind => Failure::of_socket(ToolError::Connect, asked.address, Some(kind)),
    }
}

/// Prints what came of the load. It fails where no message was settled by the filter.
fn print_totals(
    rt: &HostRuntime,
    asked: &LoadRequest<'_>,
    totals: &Totals,
) -> Result<(), ToolError> {
    let writer = &mut io::writer(rt);
    let form = if asked.json {
        ReportForm::Json
    } else {
        ReportForm::Lines
    };
    match write_report(rt.alloc(), writer, totals, form) {
        Ok(()) if totals.by_filter() > 0 => Ok(()),
        Ok(()) => Err(ToolError::Findings),
        Err(fault) => Err(output_error(fault)),
    }
}
