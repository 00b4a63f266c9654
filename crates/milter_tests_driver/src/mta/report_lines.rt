//! The lines that are printed of reports.

use crate::printed::{print_line, print_message};
use crate::texts::text_of;
use milter_mta_outcome::{Acted, By, Outcome, Report};

/// Prints a verdict that was acted on, after a separator.
fn print_acted(rt: &HostRuntime, separator: &str, acted: &Acted) -> anyhow::Result<()> {
    let stage = text_of(acted.stage.name());
    let nth = acted.nth;
    let verdict = text_of(acted.verdict.name());
    print!(rt; "{separator}{stage} {nth} {verdict}")?;
    Ok(())
}

/// The words for what became of a message, and what follows them.
fn words_of(outcome: &Outcome) -> (&'static str, &str) {
    match outcome {
        Outcome::Released(_) => ("released to ", ""),
        Outcome::Discarded => ("discarded", ""),
        Outcome::Refused(refusal) => ("refused ", text_of(refusal.text())),
        Outcome::NoRecipients => ("no recipients", ""),
        Outcome::RefusedAtConnection => ("refused at connection", ""),
    }
}

/// Prints what became of a message.
fn print_outcome(rt: &HostRuntime, outcome: &Outcome) -> anyhow::Result<()> {
    let (words, more) = words_of(outcome);
    match outcome {
        Outcome::Released(held) => {
            let recipients = held.message.recipients().len();
            Ok(print!(rt; "; {words}{recipients}; ")?)
        }
        _ => Ok(print!(rt; "; {words}{more}; ")?),
    }
}

/// Prints what settled a message, and ends the line.
fn print_by(rt: &HostRuntime, settled_by: By) -> anyhow::Result<()> {
    match settled_by {
        By::Filter => print_line(rt, "filter"),
        By::Connection => print_line(rt, "connection"),
        By::Default(loss) => Ok(println!(rt; "default {loss}")?),
    }
}

/// Prints the line of a report.
fn print_report(rt: &HostRuntime, report: &Report) -> anyhow::Result<()> {
    let mut separator = "";
    for acted in report.acted.as_slice() {
        print_acted(rt, separator, acted)?;
        separator = ", ";
    }
    print_outcome(rt, &report.outcome)?;
    print_by(rt, report.settled_by)
}

/// Prints the line of each report, and after it the text of a message that is released, where that is asked for.
pub fn print_reports(
    rt: &HostRuntime,
    reports: &[Report],
    with_messages: bool,
) -> anyhow::Result<()> {
    for report in reports {
        print_report(rt, report)?;
        match &report.outcome {
            Outcome::Released(held) if with_messages => print_message(rt, held)?,
            _ => {}
        }
    }
    Ok(())
}
