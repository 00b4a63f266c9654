//! Reports written as a text, message by message.

ghost use Rattle.std.specs.Prelude.{◌≡◌, OnErr, OnOk, false};
ghost use Rattle.std.specs.Option.{option_copied};
ghost use Rattle.std.specs.Io.KnownBytes.{Appends};
ghost use Rattle.milter_mta_outcome.specs.Losses.{is_by_client};
ghost use Rattle.milter_text.specs.TextWriter.{Puts};
ghost use Rattle.milter_text.specs.WrittenText.{WritesPrefix, WritesText};
ghost use Rattle.milter_mta_client.specs.ReportsText.{named_verdict, report_text, reports_text, settled_lines, texts_from};

use crate::PlayFault;
use crate::report_lines::{put_connection, put_report};
use milter_mail::write_message;
use milter_mta::Reports;
use milter_mta_outcome::{By, Outcome, Report};
use milter_text::{TextFault, TextWriter};
use milter_wire::Verdict;
use std::alloc::Global;
use std::io::Write;

/// Writes what became of each message of a session, a line for each part of it, each ended by LF:
///
/// - `connection` and the verdict on the client or its greeting that ended the connection, where one did, before the
///   first message that it settled;
/// - `message N BY OUTCOME`, where N counts the messages from 1, BY is `filter`, `connection`, `default reset`,
///   `default timeout`, `default memory`, or `default fault` and the number of the fault, and OUTCOME is `released`,
///   `discarded`, `refused` and the reply to the client, `no-recipients` or `refused-at-connection`;
/// - `acted STAGE NTH VERDICT` for each verdict that was acted on, those on the client and its greeting first;
/// - the text of a message that is released, as [`write_message`] writes it.
///
/// Stages and verdicts have the words of rule files, and a code has its text; texts are in quotes, as
/// [`quote`](milter_text::quote) writes them. The time is linear in the text. Memory is bounded by a small multiple of
/// 65,536 bytes, and no message is copied.
///
/// The error is `NoMemory` where memory is refused, and `Write` where a write fails, also one that is interrupted, or
/// takes nothing. After either fault a prefix of the text is written, and nothing else.
pub fn write_reports<W: Write>(
    alloc: Global,
    writer: &mut W,
    reports: &Reports,
) -> Result<(), PlayFault>
    ensures done { OnOk result (Appends (W.contents writer.old) (W.contents writer.new) (reports_text reports.now)) }
    ensures begun { OnErr result
        (WritesPrefix (reports_text reports.now) (W.contents writer.old) (W.contents writer.new)) }
{
    write_messages(alloc, writer, reports.messages())
}

/// Writes the text of each message, numbered from 1.
fn write_messages<W: Write>(
    alloc: Global,
    writer: &mut W,
    messages: &[Report],
) -> Result<(), PlayFault>
    ensures { WritesText (texts_from 1 false messages.now) (W.contents writer.old) (W.contents writer.new) result }
{
    let mut is_named = false;
    for index in 0..messages.len() {
        let report = &messages[index];
        let place = ReportPlace {
            number: index + 1,
            is_named,
        };
        write_report(alloc, writer, place, report)?;
        is_named = is_by_client(report);
    }
    Ok(())
}

/// Where a report stands in the text.
#[derive(Clone, Copy, Debug, PartialEq, Eq)]
pub struct ReportPlace {
    /// The number of the message, counted from 1.
    pub number: usize,
    /// Whether the line `connection` stands already: the message before was settled by the verdict on the client too.
    pub is_named: bool,
}

/// Whether a verdict on the client settled the message. Doesn't allocate.
pub fn is_by_client(report: &Report) -> bool
    ensures { result ≡ is_by_client report.now.settled_by }
{
    match report.settled_by {
        By::Connection => true,
        By::Filter | By::Default(_) => false,
    }
}

/// Writes the text of one message, as [`write_reports`] does, with the line `connection` before it where it is the
/// first one that the verdict on the client settled.
pub fn write_report<W: Write>(
    alloc: Global,
    writer: &mut W,
    place: ReportPlace,
    report: &Report,
) -> Result<(), PlayFault>
    ensures { WritesText (report_text place.is_named place.number report.now)
        (W.contents writer.old) (W.contents writer.new) result }
{
    write_lines(alloc, writer, place, report)?;
    match &report.outcome {
        Outcome::Released(held) => write_message(alloc, writer, held),
        _ => Ok(()),
    }
}

/// Writes the lines of a message.
fn write_lines<W: Write>(
    alloc: Global,
    writer: &mut W,
    place: ReportPlace,
    report: &Report,
) -> Result<(), PlayFault>
    ensures { WritesText (settled_lines place.is_named place.number report.now)
        (W.contents writer.old) (W.contents writer.new) result }
{
    let mut buffer = Vec::new(alloc);
    let mut output = TextWriter::new(writer, &mut buffer);
    put_lines(&mut output, place, report)?;
    output.flush()
}

/// Puts the lines of a message.
fn put_lines<W: Write>(
    output: &mut TextWriter<'_, W>,
    place: ReportPlace,
    report: &Report,
) -> Result<(), TextFault>
    ensures { Puts W.contents (settled_lines place.is_named place.number report.now) output.old output.new result }
{
    put_connection(output, named_verdict(place.is_named, report))?;
    put_report(output, place.number, report)
}

/// The verdict on the client that settled a message, unless its line stands already.
#[tactic(auto, unfolding(crate::specs::ReportsText::named_verdict))]
fn named_verdict(is_named: bool, report: &Report) -> Option<&Verdict>
    ensures { option_copied result
        ≡ named_verdict is_named (is_by_client report.now.settled_by) report.now.acted }
{
    if is_named {
        return None;
    }
    if !is_by_client(report) {
        return None;
    }
    match report.acted.as_slice().last() {
        Some(last) => Some(&last.verdict),
        None => None,
    }
}
