//! The subcommand `play` with an event file: what becomes of the messages of a session that is played to a filter in
//! memory while the events happen.

ghost use Rattle.std.specs.Prelude.{IfErr, IfOk, OnErr, OnOk};
ghost use Rattle.milter_world.specs.EventFile.{IsEventFile};
ghost use Rattle.milter_world.specs.Reached.{scenario_of};
ghost use Rattle.milter_cli.specs.FileRun.{Has, HasNone, IsFileFault, IsOf};
ghost use Rattle.milter_play.specs.InMemory.{IsRun, WritesAtMost, WritesReports};

use milter_cli::{FileError, InputFile, fault_error, read_file};
use milter_filter::Policy;
use milter_mail::Session;
use milter_mta::Config;
use milter_mta_client::{PlayFault, write_reports};
use milter_world::{Event, read_events, run};
use std::alloc::Global;
use std::io::{Read, Write};

/// Reads an event file to its end. Memory is bounded by a small multiple of the file's size, which is at most
/// 134,217,728 bytes, and of the number of its events, which is at most 10,000,000.
pub fn load_events<R: Read + Drop>(alloc: Global, reader: R) -> Result<Vec<Event>, FileError>
    ensures found { IfOk result (λ events. Has IsEventFile (R.remaining reader) events.items) }
    // An error names no other kind of file.
    ensures named { IfErr result (IsOf InputFile.Events) }
    // A fault of the file comes only of a file that has no events.
    ensures fault { IfErr result (λ e. IsFileFault e → HasNone IsEventFile (R.remaining reader)) }
{
    let file = read_file(alloc, InputFile::Events, reader)?;
    match read_events(alloc, file.as_slice()) {
        Ok(events) => Ok(events),
        Err(fault) => Err(fault_error(InputFile::Events, fault.line(), fault.number())),
    }
}

/// Plays a session to the filter with this policy while the events happen, one after the other, and writes what became
/// of the messages that they settle. After an error a prefix of the reports may have been written.
pub fn schedule_run<P: Policy, W: Write>(
    alloc: Global,
    config: Config,
    session: Session,
    policy: &P,
    events: &[Event],
    writer: &mut W,
) -> Result<(), PlayFault>
    // The reports of the session, as the events let it be played, were written, and nothing else;
    ensures done { OnOk result (WritesReports (IsRun (scenario_of (P.behavior policy.now) config session) events.now)
        (W.contents writer.old) (W.contents writer.new)) }
    // or nothing was written, or a prefix of such reports.
    ensures begun { OnErr result (WritesAtMost (IsRun (scenario_of (P.behavior policy.now) config session) events.now)
        (W.contents writer.old) (W.contents writer.new)) }
{
    let reports = run(alloc, config, session, policy, events)?;
    write_reports(alloc, writer, &reports)
}
