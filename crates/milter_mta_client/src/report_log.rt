//! Reports that are written as they come.

ghost use Rattle.milter_mta_client.specs.LoggedReports.{LogNotes};

use crate::observer::Observer;
use crate::reports_text::{ReportPlace, is_by_client, write_report};
use milter_mta_outcome::Report;
use milter_text::TextFault as PlayFault;
use std::alloc::Global;
use std::io::Write;

/// Writes each report that it is shown, until a write fails.
#[derive(Drop)]
pub(crate) struct ReportLog<W> {
    pub(crate) alloc: Global,
    pub(crate) writer: W,
    /// Whether the line `connection` stands already.
    pub(crate) is_named: bool,
    /// Why nothing more is written.
    pub(crate) fault: Option<PlayFault>,
}

impl<W: Write> Observer for ReportLog<W> {
    ghost notes = { LogNotes W.contents };

    fn settled(&mut self, number: usize, report: &Report) {
        if self.fault.is_some() {
            return;
        }
        let place = ReportPlace {
            number,
            is_named: self.is_named,
        };
        match write_report(self.alloc, &mut self.writer, place, report) {
            Ok(()) => self.is_named = is_by_client(report),
            Err(fault) => self.fault = Some(fault),
        }
    }
}
