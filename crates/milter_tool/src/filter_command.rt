//! The subcommand `filter`.

use crate::input_files::rules_at;
use milter_cli::{Failure, RuleUse, ToolError, listen_error, output_error};
use milter_command_line::{Address, FilterRequest, UsageError};
use milter_filter::CommandOrder;
use milter_play::{Connections, filter_run};
use milter_rules::Rules;
use std::io;
use std::io::ErrorKind;
use std::net::TcpListener;
use std::os::unix::net::UnixListener;

/// Serves connections of mail servers one after another, as a filter.
pub(crate) fn serve_in_turn<'x>(
    rt: &HostRuntime,
    asked: &FilterRequest<'x>,
) -> Result<(), Failure<'x>> {
    let Some(address) = Address::parse(asked.address) else {
        return Err(Failure::from(ToolError::Usage(UsageError::BadAddress)));
    };
    let usage = RuleUse {
        ignore_case: asked.ignore_case,
        least_stages: asked.least_stages,
        names_messages: false,
    };
    let rules = rules_at(rt, asked.rules, usage)?;
    let served = serve_at(rt, &rules, address, asked);
    drop(rules);
    served
}

/// Serves so many of the connections at this address as are asked for, with these rules.
fn serve_at<'x>(
    rt: &HostRuntime,
    rules: &Rules,
    address: Address<'x>,
    asked: &FilterRequest<'x>,
) -> Result<(), Failure<'x>> {
    let order = order_of(asked.lenient);
    match address {
        Address::Inet { port, host } => match TcpListener::bind(rt, (host, port)) {
            Ok(listener) => Ok(serve_connections(rt, rules, listener, asked.count, order)?),
            Err(error) => Err(unbound(asked.address, error.kind())),
        },
        Address::Unix { path } => match UnixListener::bind(rt, path) {
            Ok(listener) => Ok(serve_connections(rt, rules, listener, asked.count, order)?),
            Err(error) => Err(unbound(asked.address, error.kind())),
        },
    }
}

/// Serves so many of these connections, as a filter with these rules.
fn serve_connections<C: Connections + Drop>(
    rt: &HostRuntime,
    rules: &Rules,
    mut connections: C,
    count: u32,
    order: CommandOrder,
) -> Result<(), ToolError> {
    let mut writer = io::writer(rt);
    match filter_run(
        rt.alloc(),
        rules,
        order,
        &mut connections,
        count,
        &mut writer,
    ) {
        Ok(()) => Ok(()),
        Err(fault) => Err(output_error(fault)),
    }
}

/// The order in which a filter takes commands.
pub(crate) fn order_of(lenient: bool) -> CommandOrder {
    if lenient {
        CommandOrder::Lenient
    } else {
        CommandOrder::Strict
    }
}

/// The failure of a socket that isn't bound at this address.
pub(crate) fn unbound(address: &str, kind: ErrorKind) -> Failure<'_> {
    Failure::of_socket(listen_error(kind), address, Some(kind))
}
