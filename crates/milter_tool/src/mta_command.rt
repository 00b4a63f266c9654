//! The subcommand `mta`.

use crate::input_files::session_at;
use crate::session_reports::{end_reports, expected_at, kept_error};
use milter_cli::{Failure, ToolError, output_error};
use milter_command_line::{Address, GivenMacro, MtaRequest, Target};
use milter_mail::Session;
use milter_mta::Config;
use milter_mta_client::mta_run;
use milter_play::{
    Connect, LimitedDial, Negotiation, SeenDial, TcpDial, UnixDial, WaitingDial, parse_macros,
    with_macros,
};
use milter_text::write_text;
use std::io;
use std::time::Duration;

/// How connections are made: waited for at first, lost where that is asked for, and seen where their negotiation is to
/// be printed.
type Dialing<'r, 'n, D> = SeenDial<'n, LimitedDial<WaitingDial<'r, D>>>;

/// Plays the session of a file to a filter, as a mail server, and prints what becomes of its messages.
pub(crate) fn play_session<'x>(
    rt: &HostRuntime,
    asked: &MtaRequest<'x>,
) -> Result<(), Failure<'x>> {
    let target = match Target::parse(asked.address, asked.actions, asked.protocol) {
        Ok(target) => target,
        Err(error) => return Err(Failure::from(ToolError::Usage(error))),
    };
    let config = Config::new(target.offer.actions, target.offer.protocol, asked.loss).unwrap();
    match parse_macros(rt.alloc(), asked.macros.as_slice()) {
        Ok(macros) => play_session_at(rt, config, asked, target.address, macros.as_slice()),
        Err(error) => Err(Failure::from(error)),
    }
}

/// The same to the filter at this address, with these macros.
fn play_session_at<'x>(
    rt: &HostRuntime,
    config: Config,
    asked: &MtaRequest<'x>,
    address: Address<'x>,
    macros: &[GivenMacro<'x>],
) -> Result<(), Failure<'x>> {
    let limit = Duration::from_secs(u64::from(asked.timeout));
    match address {
        Address::Inet { port, host } => {
            play_session_over(
                rt,
                config,
                asked,
                macros,
                TcpDial::new(rt, port, host, limit),
            )
        }
        Address::Unix { path } => {
            play_session_over(rt, config, asked, macros, UnixDial::new(rt, path, limit))
        }
    }
}

/// Plays the session over the connections that `dial` makes. The report of each message is printed once it is settled.
/// The reports are kept until it is known that there was a connection, what was negotiated on it, or that they are the
/// expected ones, where that is asked for.
fn play_session_over<'x, D: Connect + Drop>(
    rt: &HostRuntime,
    config: Config,
    asked: &MtaRequest<'x>,
    macros: &[GivenMacro<'x>],
    dial: D,
) -> Result<(), Failure<'x>> {
    let limited = LimitedDial::new(WaitingDial::new(rt, dial, asked.wait), asked.at_loss);
    if asked.show_negotiation {
        let negotiation = Negotiation::new(rt.alloc());
        let mut dial = SeenDial::new(limited, Some(&negotiation));
        return play_kept(rt, config, asked, macros, &mut dial, Some(&negotiation));
    }
    let mut dial = SeenDial::new(limited, None);
    if asked.wait == 0 && asked.expect.is_none() {
        play_printed(rt, config, asked, macros, &mut dial)
    } else {
        play_kept(rt, config, asked, macros, &mut dial, None)
    }
}

/// Plays the session, and prints the report of each message once it is settled.
fn play_printed<'x, D: Connect + Drop>(
    rt: &HostRuntime,
    config: Config,
    asked: &MtaRequest<'x>,
    macros: &[GivenMacro<'x>],
    dial: &mut Dialing<'_, '_, D>,
) -> Result<(), Failure<'x>> {
    let session = session_with(rt, asked.session, macros)?;
    match mta_run(rt.alloc(), config, session, dial, io::writer(rt)) {
        (_, Ok(())) => Ok(()),
        (_, Err(fault)) => Err(Failure::from(output_error(fault))),
    }
}

/// Plays the session, and prints the reports once it has ended.
fn play_kept<'x, D: Connect + Drop>(
    rt: &HostRuntime,
    config: Config,
    asked: &MtaRequest<'x>,
    macros: &[GivenMacro<'x>],
    dial: &mut Dialing<'_, '_, D>,
    negotiation: Option<&Negotiation>,
) -> Result<(), Failure<'x>> {
    let expected = expected_at(rt, asked.expect)?;
    match reports_found(rt, config, asked, macros, dial, negotiation) {
        Ok(found) => end_reports(rt, found, expected),
        Err(failure) => {
            drop(expected);
            Err(failure)
        }
    }
}

/// The reports of the session, where there was a connection, after what was negotiated is printed.
fn reports_found<'x, D: Connect + Drop>(
    rt: &HostRuntime,
    config: Config,
    asked: &MtaRequest<'x>,
    macros: &[GivenMacro<'x>],
    dial: &mut Dialing<'_, '_, D>,
    negotiation: Option<&Negotiation>,
) -> Result<Vec<u8>, Failure<'x>> {
    let found = reports_of(rt, config, asked.session, macros, dial)?;
    let waited = dial.dial_below().dial_below();
    if waited.has_failed() {
        drop(found);
        return Err(Failure::of_socket(ToolError::Connect, asked.address, waited.refusal()));
    }
    match print_negotiation(rt, negotiation) {
        Ok(()) => Ok(found),
        Err(error) => {
            drop(found);
            Err(Failure::from(error))
        }
    }
}

/// The reports of the session of the file at this path, with these macros.
fn reports_of<D: Connect + Drop>(
    rt: &HostRuntime,
    config: Config,
    path: &str,
    macros: &[GivenMacro<'_>],
    dial: &mut Dialing<'_, '_, D>,
) -> Result<Vec<u8>, ToolError> {
    let session = session_with(rt, path, macros)?;
    let kept = Vec::new(rt.alloc());
    let (found, played) = mta_run(rt.alloc(), config, session, dial, kept);
    match played {
        Ok(()) => Ok(found),
        Err(fault) => {
            drop(found);
            Err(kept_error(output_error(fault)))
        }
    }
}

/// The session of the file at this path, with these macros.
fn session_with(
    rt: &HostRuntime,
    path: &str,
    macros: &[GivenMacro<'_>],
) -> Result<Session, ToolError> {
    let session = session_at(rt, path)?;
    with_macros(rt.alloc(), session, macros)
}

/// Prints what was negotiated, where that is asked for.
fn print_negotiation(rt: &HostRuntime, negotiation: Option<&Negotiation>) -> Result<(), ToolError> {
    let Some(negotiation) = negotiation else {
        return Ok(());
    };
    let Ok(lines) = negotiation.lines() else {
        return Err(ToolError::NoMemory);
    };
    match write_text(&mut io::writer(rt), lines.as_slice()) {
        Ok(()) => Ok(()),
        Err(fault) => Err(output_error(fault)),
    }
}
