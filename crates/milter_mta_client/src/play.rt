//! A session that is played to filters.

ghost use Rattle.std.specs.Prelude.{OnOk};
ghost use Rattle.milter_mta_client.specs.MtaRuns.{PlaysSession};

use crate::client::converse_observed;
use crate::connection::Dial;
use crate::report_log::ReportLog;
use milter_mail::Session;
use milter_mta::{Config, MtaCore, messages_are_settled_by_dialogues};
use milter_text::TextFault as PlayFault;
use std::alloc::Global;
use std::io::Write;

/// Plays a session to filters over the connections that `dial` makes, as a mail server with this configuration, and
/// writes what became of each message once it is settled, as [`write_reports`](crate::write_reports) does.
/// The writer comes back. Filters that are lost are no error. After an error a prefix of the reports may have been
/// written; the session was played to its end, unless memory was refused before it began.
pub fn mta_run<D: Dial, W: Write>(
    alloc: Global,
    config: Config,
    session: Session,
    dial: &mut D,
    writer: W,
) -> (W, Result<(), PlayFault>)
    // The reports of the session were written, and nothing else.
    ensures done { OnOk result.1 (PlaysSession config session (W.contents writer) (W.contents result.0)) }
{
    messages_are_settled_by_dialogues();
    let core = match MtaCore::new(alloc, config, session) {
        Ok(core) => core,
        Err(session) => {
            drop(session);
            return (writer, Err(PlayFault::NoMemory));
        }
    };
    let mut log = ReportLog {
        alloc,
        writer,
        is_named: false,
        fault: None,
    };
    drop(converse_observed(alloc, core, dial, &mut log));
    let ReportLog { writer, fault, .. } = log;
    match fault {
        None => (writer, Ok(())),
        Some(fault) => (writer, Err(fault)),
    }
}
