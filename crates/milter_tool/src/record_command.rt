//! The subcommand `record`.

use crate::load_command::target_of;
use crate::serve_command::listener_at;
use milter_cli::{Failure, ToolError};
use milter_command_line::{Address, RecordRequest, UsageError};
use milter_record::{RecordError, create_directory, has_traces, record};
use milter_sockets::Target;
use std::io::{ErrorKind, Stderr};

/// The mode of a Unix socket.
const MODE: u32 = 0o660;

/// Passes connections of mail servers on to a filter, and records each in a trace. What becomes of connections that
/// can't be passed on is written to `errors`.
pub(crate) fn record_connections<'x>(
    rt: &HostRuntime,
    asked: &RecordRequest<'x>,
    errors: &mut Stderr,
) -> Result<(), Failure<'x>> {
    let filter = filter_of(asked)?;
    let target = match target_of(rt, filter) {
        Ok(target) => target,
        Err(kind) => return Err(not_found(asked, kind)),
    };
    match make_directory(rt, asked.directory) {
        Ok(()) => record_at(rt, asked, target, errors),
        Err(error) => {
            drop(target);
            Err(Failure::from(error))
        }
    }
}

/// The address of the filter, where both addresses are of their form.
fn filter_of<'x>(asked: &RecordRequest<'x>) -> Result<Address<'x>, ToolError> {
    match (Address::parse(asked.listen), Address::parse(asked.address)) {
        (Some(_), Some(filter)) => Ok(filter),
        _ => Err(ToolError::Usage(UsageError::BadAddress)),
    }
}

/// The filter's host was not found.
fn not_found<'x>(asked: &RecordRequest<'x>, kind: ErrorKind) -> Failure<'x> {
    match kind {
        ErrorKind::OutOfMemory => Failure::from(ToolError::NoMemory),
        kind => Failure::of_socket(ToolError::Connect, asked.address, Some(kind)),
    }
}

/// Makes the directory of the traces: an error where it has some already.
fn make_directory(rt: &HostRuntime, directory: &str) -> Result<(), ToolError> {
    if let Err(error) = create_directory(rt, directory) {
        return Err(match error.kind() {
            ErrorKind::OutOfMemory => ToolError::NoMemory,
            _ => ToolError::Record,
        });
    }
    match has_traces(rt, rt.alloc(), directory) {
        Ok(false) => Ok(()),
        Ok(true) => Err(ToolError::Record),
        Err(_) => Err(ToolError::NoMemory),
    }
}

/// Records the connections that come at the address that is asked for.
fn record_at<'x>(
    rt: &HostRuntime,
    asked: &RecordRequest<'x>,
    target: Target<'x>,
    errors: &mut Stderr,
) -> Result<(), Failure<'x>> {
    let listener = match listener_at(rt, asked.listen, MODE) {
        Ok(listener) => listener,
        Err(failure) => {
            drop(target);
            return Err(failure);
        }
    };
    let most = match asked.count {
        0 => None,
        count => Some(u64::from(count)),
    };
    match record(
        rt,
        rt.alloc(),
        listener,
        target,
        asked.directory,
        most,
        errors,
    ) {
        Ok(()) => Ok(()),
        Err(RecordError::Wait) => Err(Failure::from(ToolError::Listen)),
        Err(RecordError::NoMemory) => Err(Failure::from(ToolError::NoMemory)),
    }
}
