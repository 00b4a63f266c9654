//! The subcommand `replay`.

ghost use Rattle.std.specs.Prelude.{IfOk};
ghost use Rattle.milter_replay.specs.Recordings.{AllFit};

use crate::input_files::open;
use milter_cli::{Failure, InputFile, ToolError};
use milter_command_line::{Address, ReplayRequest, UsageError};
use milter_play::{Connect, TcpDial, UnixDial, WaitingDial, load_recording, replay_run};
use milter_replay::Recording;
use std::io::{self, Read, Write};
use std::time::Duration;

/// Sends the commands of a trace to a filter, as a mail server, and prints what it replies beside what was recorded.
pub(crate) fn replay_trace<'x>(
    rt: &HostRuntime,
    asked: &ReplayRequest<'x>,
) -> Result<(), Failure<'x>> {
    let Some(address) = Address::parse(asked.address) else {
        return Err(Failure::from(ToolError::Usage(UsageError::BadAddress)));
    };
    let recording = recording_at(rt, asked.trace)?;
    let limit = Duration::from_secs(u64::from(asked.timeout));
    match address {
        Address::Inet { port, host } => {
            match connected(rt, asked, TcpDial::new(rt, port, host, limit)) {
                Ok(link) => replay_over(rt, &recording, &mut &link, &mut &link),
                Err(failure) => Err(failure),
            }
        }
        Address::Unix { path } => match connected(rt, asked, UnixDial::new(rt, path, limit)) {
            Ok(link) => replay_over(rt, &recording, &mut &link, &mut &link),
            Err(failure) => Err(failure),
        },
    }
}

/// The connection that `dial` makes, for which it is tried as long as is asked for.
fn connected<'x, D: Connect + Drop>(
    rt: &HostRuntime,
    asked: &ReplayRequest<'x>,
    dial: D,
) -> Result<D::Link, Failure<'x>> {
    let mut dial = WaitingDial::new(rt, dial, asked.wait);
    match dial.connect_first() {
        Ok(link) => Ok(link),
        Err(_) => Err(Failure::of_socket(ToolError::Connect, asked.address, dial.refusal())),
    }
}

/// Sends the commands of a recording over a connection, and prints the lines of both sides.
fn replay_over<'x, I: Read, O: Write>(
    rt: &HostRuntime,
    recording: &Recording,
    reader: &mut I,
    link: &mut O,
) -> Result<(), Failure<'x>>
    requires { AllFit recording.now.exchanges.items }
{
    match replay_run(rt.alloc(), recording, reader, link, &mut io::writer(rt)) {
        Ok(()) => Ok(()),
        Err(error) => Err(Failure::from(error)),
    }
}

/// The recorded conversation of the trace at this path.
fn recording_at(rt: &HostRuntime, path: &str) -> Result<Recording, ToolError>
    // Each command has an encoding.
    ensures { IfOk result (λ recording. AllFit recording.exchanges.items) }
{
    let file = open(rt, InputFile::Trace, path)?;
    load_recording(rt.alloc(), file).map_err(ToolError::File)
}
