//! Who is shown what becomes of messages while a session is played.

ghost use Rattle.std.specs.Prelude.{ℕ, ◌+◌, drop};
ghost use Rattle.milter_mta_outcome.specs.declared.outcome.Report.{Report as ReportValue};
ghost use Rattle.milter_mta_client.specs.Observations.{NotesEach, notes_nothing};

use milter_mta::MtaCore;
use milter_mta_outcome::Report;

/// Who is shown the report of each message once it is settled, in the session's order.
pub trait Observer {
    /// What it leaves of the observer that the message with a number has a report.
    ghost notes: { Self → ℕ → ReportValue → Self → Type 0 };

    /// The message with this number, counted from 1, is settled.
    fn settled(&mut self, number: usize, report: &Report)
        ensures { notes self.old number report.now self.new };
}

/// An observer that looks at nothing.
#[derive(Clone, Copy, Debug, PartialEq, Eq)]
pub struct NoObserver;

impl Observer for NoObserver {
    ghost notes = { notes_nothing };

    fn settled(&mut self, _number: usize, _report: &Report) {}
}

/// Shows the observer the reports after so many.
pub(crate) fn show<O: Observer>(core: &MtaCore, shown: usize, observer: &mut O)
    ensures { NotesEach O.notes (shown + 1) (drop shown core.now.reports) observer.old observer.new }
{
    let reports = core.reports();
    for index in shown..reports.len() {
        observer.settled(index + 1, &reports[index]);
    }
}
