//! The subcommand `play`: what becomes of the messages of a session that is played to a filter in memory.

ghost use Rattle.std.specs.Prelude.{OnErr, OnOk};
ghost use Rattle.milter_world.specs.Reached.{scenario_of};
ghost use Rattle.milter_play.specs.InMemory.{IsPlayed, WritesAtMost, WritesReports};

use milter_filter::Policy;
use milter_mail::Session;
use milter_mta::Config;
use milter_mta_client::{PlayFault, write_reports};
use milter_world::play;
use std::alloc::Global;
use std::io::Write;

/// Plays a session to the filter with this policy, over one connection on which everything arrives, and writes what
/// became of its messages once all are settled. After an error a prefix of the reports may have been written.
pub fn play_run<P: Policy, W: Write>(
    alloc: Global,
    config: Config,
    session: Session,
    policy: &P,
    writer: &mut W,
) -> Result<(), PlayFault>
    // The reports of the session, as it is played, were written, and nothing else;
    ensures done { OnOk result (WritesReports (IsPlayed (scenario_of (P.behavior policy.now) config session))
        (W.contents writer.old) (W.contents writer.new)) }
    // or nothing was written, or a prefix of such reports.
    ensures begun { OnErr result (WritesAtMost (IsPlayed (scenario_of (P.behavior policy.now) config session))
        (W.contents writer.old) (W.contents writer.new)) }
{
    let reports = play(alloc, config, session, policy)?;
    write_reports(alloc, writer, &reports)
}
