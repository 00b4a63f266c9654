//! The report of a load, and its lines.

use crate::figures::{Figures, put_a_second, put_number, put_seconds};
use crate::json_report::put_object;
use crate::outcome::{Cause, Settled};
use crate::schedule::SECOND;
use crate::timed::Timed;
use crate::totals::Totals;
use milter_load_stats::Latencies;
use milter_text::{TextFault, TextWriter};
use std::alloc::Global;
use std::io::Write;

/// How a report is written.
#[derive(Clone, Copy)]
pub enum ReportForm {
    /// As lines of words and numbers. Outcomes, causes and latencies of which there is none are left out.
    Lines,
    /// As one JSON object, in a line. All outcomes, causes and latencies are there.
    Json,
}

/// Writes the report of a load in this form.
pub fn write_report<W: Write>(
    alloc: Global,
    writer: &mut W,
    totals: &Totals,
    form: ReportForm,
) -> Result<(), TextFault> {
    let mut buffer = Vec::new(alloc);
    let mut output = TextWriter::new(writer, &mut buffer);
    put_report(&mut output, totals, form)
}

/// Puts the report in this form.
fn put_report<W: Write>(
    output: &mut TextWriter<'_, W>,
    totals: &Totals,
    form: ReportForm,
) -> Result<(), TextFault> {
    match form {
        ReportForm::Lines => put_lines(output, totals)?,
        ReportForm::Json => put_object(output, totals)?,
    }
    output.flush()
}

/// Puts the report as lines.
fn put_lines<W: Write>(output: &mut TextWriter<'_, W>, totals: &Totals) -> Result<(), TextFault> {
    put_sums(output, totals)?;
    put_connections(output, totals)?;
    put_outcomes(output, totals)?;
    put_latencies(output, totals)
}

/// Writes how far a load is at this time, over the line that is there.
pub fn write_progress<W: Write>(
    alloc: Global,
    writer: &mut W,
    totals: &Totals,
    now: u64,
) -> Result<(), TextFault> {
    let mut buffer = Vec::new(alloc);
    let mut output = TextWriter::new(writer, &mut buffer);
    put_progress(&mut output, totals, now.saturating_sub(totals.start))
}

/// Puts how far a load is after so many microseconds.
fn put_progress<W: Write>(
    output: &mut TextWriter<'_, W>,
    totals: &Totals,
    micros: u64,
) -> Result<(), TextFault> {
    output.put(b"\rsecond ")?;
    put_number(output, micros / SECOND)?;
    output.put(b", messages ")?;
    put_number(output, totals.messages())?;
    output.put(b", a second ")?;
    put_a_second(output, totals.messages(), micros)?;
    output.put(b", by default ")?;
    put_number(output, totals.by_default())?;
    output.put(b" ")?;
    output.flush()
}

/// Puts how long it took, and how many messages and bytes there were.
fn put_sums<W: Write>(output: &mut TextWriter<'_, W>, totals: &Totals) -> Result<(), TextFault> {
    output.put(b"seconds ")?;
    put_seconds(output, totals.elapsed())?;
    output.put(b"\n")?;
    put_sum(output, b"messages ", totals.messages(), totals.elapsed())?;
    put_sum(output, b"sent ", totals.sent, totals.elapsed())?;
    put_sum(output, b"received ", totals.received, totals.elapsed())
}

/// Puts how many there were, and how many a second.
fn put_sum<W: Write>(
    output: &mut TextWriter<'_, W>,
    words: &[u8],
    count: u64,
    micros: u64,
) -> Result<(), TextFault> {
    output.put(words)?;
    put_number(output, count)?;
    output.put(b" a-second ")?;
    put_a_second(output, count, micros)?;
    output.put(b"\n")
}

/// Puts how many connections there were, and how many messages wait.
fn put_connections<W: Write>(
    output: &mut TextWriter<'_, W>,
    totals: &Totals,
) -> Result<(), TextFault> {
    put_count(output, b"connections made ", totals.made)?;
    put_count(output, b"connections failed ", totals.failed)?;
    put_count(output, b"connections lost ", totals.lost)?;
    if totals.waiting > 0 {
        put_count(output, b"waiting ", totals.waiting)?;
    }
    Ok(())
}

/// Puts a line of words and a number.
fn put_count<W: Write>(
    output: &mut TextWriter<'_, W>,
    words: &[u8],
    count: u64,
) -> Result<(), TextFault> {
    output.put(words)?;
    put_number(output, count)?;
    output.put(b"\n")
}

/// Puts what a filter made of the messages, and why messages were settled by default.
fn put_outcomes<W: Write>(
    output: &mut TextWriter<'_, W>,
    totals: &Totals,
) -> Result<(), TextFault> {
    for settled in Settled::ALL {
        let count = totals.settled(settled);
        put_some(output, b"settled ", settled.name(), count)?;
    }
    for cause in Cause::ALL {
        let count = totals.defaults(cause);
        put_some(output, b"settled default ", cause.name(), count)?;
    }
    Ok(())
}

/// Puts a line of words, a name and a number, unless this is 0.
fn put_some<W: Write>(
    output: &mut TextWriter<'_, W>,
    words: &[u8],
    name: &[u8],
    count: u64,
) -> Result<(), TextFault> {
    if count == 0 {
        return Ok(());
    }
    output.put(words)?;
    output.put(name)?;
    put_count(output, b" ", count)
}

/// Puts how long replies took.
fn put_latencies<W: Write>(
    output: &mut TextWriter<'_, W>,
    totals: &Totals,
) -> Result<(), TextFault> {
    for timed in Timed::ALL {
        if let Some(latencies) = totals.latencies(timed) {
            put_figures(output, timed, latencies)?;
        }
    }
    Ok(())
}

/// Puts how long replies to this took, where there were some.
fn put_figures<W: Write>(
    output: &mut TextWriter<'_, W>,
    timed: Timed,
    latencies: &Latencies,
) -> Result<(), TextFault> {
    let figures = Figures::of(latencies);
    if figures.count == 0 {
        return Ok(());
    }
    output.put(b"latency ")?;
    output.put(timed.name())?;
    put_next(output, figures.count)?;
    put_next(output, figures.p50)?;
    put_next(output, figures.p90)?;
    put_next(output, figures.p99)?;
    put_next(output, figures.p999)?;
    put_next(output, figures.most)?;
    output.put(b"\n")
}

/// Puts a blank and a number.
fn put_next<W: Write>(output: &mut TextWriter<'_, W>, number: u64) -> Result<(), TextFault> {
    output.put(b" ")?;
    put_number(output, number)
}
