//! The subcommand `serve`.

use crate::filter_command::unbound;
use milter_cli::{Failure, RuleUse, ToolError, service_error};
use milter_command_line::{Address, ServeRequest, UsageError, VERSION, parse_mode};
use milter_rules::Rules;
use milter_serve::{
    LineOutput, LogDetail, LoggedPolicy, LostWords, RuleFile, RuleHost, RuleSource, RuleText,
    ServiceEvent, ServiceLog, ServiceStart, StandardStream, fill_standard, free_descriptors,
    lines_in,
};
use milter_service::{Host, Limits, Listener, Service};
use std::alloc::Global;
use std::rc::Rc;

/// The word after `--log` by which each message has a line. It is no address.
const ALL: &str = "all";

/// The line on standard output of how many lines were lost there.
const LOST_LINES: LostWords = LostWords {
    before: "lost ",
    after: "",
};

/// The same on standard error.
const LOST_EVENTS: LostWords = LostWords {
    before: "event=\"lost\" lines=\"",
    after: "\"",
};

/// What the command line asks for, as far as it is right.
#[derive(Drop)]
struct Serving<'x> {
    addresses: Vec<&'x str>,
    mode: u32,
    detail: LogDetail,
    limits: Limits,
    at_once: u32,
    rules: Option<&'x str>,
    usage: RuleUse,
}

/// Serves connections of mail servers at once, as a filter, until it is ended.
pub(crate) fn serve_many<'x>(
    rt: &'x HostRuntime,
    asked: &ServeRequest<'x>,
) -> Result<(), Failure<'x>> {
    let serving = serving_of(rt.alloc(), asked)?;
    let filled = fill_standard(rt, rt.alloc());
    let served = serve_as(rt, &serving);
    drop(serving);
    drop(filled);
    served
}

/// The same, by what the command line asks for.
fn serve_as<'x>(rt: &'x HostRuntime, serving: &Serving<'x>) -> Result<(), Failure<'x>> {
    let errors = LineOutput::new(rt.alloc(), StandardStream::errors(), LOST_EVENTS);
    let log = ServiceLog::new(errors, serving.detail);
    let ended = serve_logged(rt, serving, &log);
    drop(log);
    ended
}

/// The same with this log.
fn serve_logged<'x>(
    rt: &'x HostRuntime,
    serving: &Serving<'x>,
    log: &ServiceLog<StandardStream>,
) -> Result<(), Failure<'x>> {
    let mut source = RuleFile::new(rt, rt.alloc(), serving.rules, serving.usage);
    match first_rules(rt.alloc(), &mut source) {
        Ok(rules) => serve_first_by(rt, serving, source, rules, log),
        Err(error) => {
            drop(source);
            Err(Failure::from(error))
        }
    }
}

/// The same, first by these rules of the source.
fn serve_first_by<'x, 's>(
    rt: &HostRuntime,
    serving: &Serving<'x>,
    source: RuleFile<'s>,
    rules: Rules,
    log: &ServiceLog<StandardStream>,
) -> Result<(), Failure<'x>> {
    let free = free_descriptors(rt, rt.alloc());
    let listeners = match listeners_at(rt, serving.addresses.as_slice(), serving.mode) {
        Ok(listeners) => listeners,
        Err(failure) => {
            drop(rules);
            drop(source);
            return Err(failure);
        }
    };
    log_start(rt.alloc(), log, serving, source.text(), &rules, free);
    match serve_rules(rt, serving, listeners, source, rules, log) {
        Ok(()) => Ok(()),
        Err(error) => {
            log.write_event(rt.alloc(), &ServiceEvent::End(&error));
            Err(Failure::from(error))
        }
    }
}

/// What the command line asks for; or why it is wrong.
fn serving_of<'x>(alloc: Global, asked: &ServeRequest<'x>) -> Result<Serving<'x>, ToolError> {
    let detail = detail_of(asked);
    let addresses = addresses_of(alloc, asked.addresses.as_slice(), detail)?;
    if addresses.is_empty() || !are_addresses(addresses.as_slice()) {
        drop(addresses);
        return Err(ToolError::Usage(UsageError::BadAddress));
    }
    let mode = match parse_mode(asked.mode) {
        Ok(mode) => mode,
        Err(error) => {
            drop(addresses);
            return Err(ToolError::Usage(error));
        }
    };
    Ok(Serving {
        addresses,
        mode,
        detail,
        limits: Limits {
            at_once: asked.at_once as usize,
            timeout: u64::from(asked.timeout),
            answer: u64::from(asked.timeout),
            progress: 0,
        },
        at_once: asked.at_once,
        rules: asked.rules,
        usage: RuleUse {
            ignore_case: asked.ignore_case,
            least_stages: !asked.all_stages,
            names_messages: asked.log,
        },
    })
}

/// Which answers have lines in the log: each message has one where the word `all` is there.
fn detail_of(asked: &ServeRequest<'_>) -> LogDetail {
    if !asked.log {
        return LogDetail::Nothing;
    }
    for word in asked.addresses.as_slice() {
        if *word == ALL {
            return LogDetail::Messages;
        }
    }
    LogDetail::Decisions
}

/// These words but for that of the log, where there is a log.
fn addresses_of<'x>(
    alloc: Global,
    words: &[&'x str],
    detail: LogDetail,
) -> Result<Vec<&'x str>, ToolError> {
    let mut addresses = Vec::new(alloc);
    for word in words {
        let is_of_log = detail == LogDetail::Messages && *word == ALL;
        if !is_of_log && addresses.push(*word).is_err() {
            return Err(ToolError::NoMemory);
        }
    }
    Ok(addresses)
}

/// Logs with what the service begins, and each address at which it listens. Where so many descriptors were free before
/// it listened that fewer connections can be open than are allowed, it says so: each listener has one, the waiting for
/// sockets one, and the reading of rules one.
fn log_start(
    alloc: Global,
    log: &ServiceLog<StandardStream>,
    serving: &Serving<'_>,
    file: Option<RuleText<'_>>,
    rules: &Rules,
    free: Option<u64>,
) {
    let own: u64 = if serving.rules.is_some() { 2 } else { 1 };
    let taken = own.saturating_add(serving.addresses.len() as u64);
    let allowed = match free {
        Some(free) => Some(free.saturating_sub(taken)),
        None => None,
    };
    let start = ServiceStart {
        version: VERSION,
        addresses: serving.addresses.as_slice(),
        at_once: serving.at_once,
        allowed,
        file,
        rules,
    };
    log.write_event(alloc, &ServiceEvent::Start(start));
    if let Some(allowed) = allowed {
        let at_once = serving.at_once;
        if allowed < u64::from(at_once) {
            log.write_event(alloc, &ServiceEvent::Limit { at_once, allowed });
        }
    }
    for address in serving.addresses.as_slice() {
        log.write_event(alloc, &ServiceEvent::Listen(address));
    }
}

/// The rules that a source has when it is asked first; none where it has none.
fn first_rules<S: RuleSource>(alloc: Global, source: &mut S) -> Result<Rules, ToolError> {
    match source.changed(alloc) {
        Some(Ok(rules)) => Ok(rules),
        Some(Err(error)) => Err(ToolError::File(error)),
        None => Ok(Rules::new(alloc)),
    }
}

/// Serves connections at once, first by these rules.
fn serve_rules<'s>(
    rt: &HostRuntime,
    serving: &Serving<'_>,
    listeners: Vec<Listener>,
    source: RuleFile<'s>,
    rules: Rules,
    log: &ServiceLog<StandardStream>,
) -> Result<(), ToolError> {
    let policy = LoggedPolicy {
        policy: rules,
        lines: lines_in(rt.alloc(), source.text()),
        log,
    };
    let Ok(current) = Rc::new(rt.alloc(), policy) else {
        drop(source);
        drop(listeners);
        return Err(ToolError::NoMemory);
    };
    let mut host = RuleHost {
        alloc: rt.alloc(),
        source,
        current,
        output: &mut LineOutput::new(rt.alloc(), StandardStream::output(), LOST_LINES),
        log,
        failed: None,
        is_refusing: false,
    };
    serve_listeners(rt, serving.limits, listeners, &mut host)
}

/// Whether each of these texts is an address.
fn are_addresses(texts: &[&str]) -> bool {
    for text in texts {
        if Address::parse(text).is_none() {
            return false;
        }
    }
    true
}

/// Listeners on these addresses, on sockets of this mode where they have paths.
fn listeners_at<'x>(
    rt: &HostRuntime,
    addresses: &[&'x str],
    mode: u32,
) -> Result<Vec<Listener>, Failure<'x>> {
    let mut listeners = Vec::new(rt.alloc());
    for address in addresses {
        match listener_at(rt, address, mode) {
            Ok(listener) => {
                if listeners.push(listener).is_err() {
                    drop(listeners);
                    return Err(Failure::from(ToolError::NoMemory));
                }
            }
            Err(failure) => {
                drop(listeners);
                return Err(failure);
            }
        }
    }
    Ok(listeners)
}

/// A listener on this address.
pub(crate) fn listener_at<'x>(
    rt: &HostRuntime,
    address: &'x str,
    mode: u32,
) -> Result<Listener, Failure<'x>> {
    let bound = match Address::parse(address) {
        Some(Address::Inet { port, host }) => Listener::bind_inet(rt, host, port),
        Some(Address::Unix { path }) => Listener::bind_unix(rt, path, mode),
        None => return Err(Failure::from(ToolError::Usage(UsageError::BadAddress))),
    };
    match bound {
        Ok(listener) => Ok(listener),
        Err(error) => Err(unbound(address, error.kind())),
    }
}

/// Serves the connections of these listeners at once, as a filter whose questions the host answers.
fn serve_listeners<H: Host>(
    rt: &HostRuntime,
    limits: Limits,
    listeners: Vec<Listener>,
    host: &mut H,
) -> Result<(), ToolError> {
    match Service::new(rt, rt.alloc(), limits, listeners) {
        Ok(mut service) => run_service(&mut service, host),
        Err(error) => Err(service_error(error)),
    }
}

/// Runs the service until it ends.
fn run_service<H: Host>(
    service: &mut Service<'_, H::Session>,
    host: &mut H,
) -> Result<(), ToolError> {
    match service.run(host) {
        Ok(()) => Ok(()),
        Err(error) => Err(service_error(error)),
    }
}
