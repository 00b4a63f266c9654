//! The report of a load, as a JSON object.

use crate::figures::{Figures, put_a_second, put_number, put_seconds};
use crate::outcome::{Cause, Settled};
use crate::timed::Timed;
use crate::totals::Totals;
use milter_load_stats::Latencies;
use milter_text::{TextFault, TextWriter};
use std::io::Write;

/// Puts the report of a load as one JSON object, in a line.
pub(crate) fn put_object<W: Write>(
    output: &mut TextWriter<'_, W>,
    totals: &Totals,
) -> Result<(), TextFault> {
    output.put(b"{\"seconds\":")?;
    put_seconds(output, totals.elapsed())?;
    put_sum(output, b"messages", totals.messages(), totals.elapsed())?;
    put_sum(output, b"sent", totals.sent, totals.elapsed())?;
    put_sum(output, b"received", totals.received, totals.elapsed())?;
    put_connections(output, totals)?;
    put_outcomes(output, totals)?;
    put_latencies(output, totals)?;
    output.put(b"}\n")
}

/// Puts how many there were and how many a second, as two members after others.
fn put_sum<W: Write>(
    output: &mut TextWriter<'_, W>,
    name: &[u8],
    count: u64,
    micros: u64,
) -> Result<(), TextFault> {
    put_member(output, b",", name, count)?;
    output.put(b",\"")?;
    output.put(name)?;
    output.put(b"-a-second\":")?;
    put_a_second(output, count, micros)
}

/// Puts a member whose value is a number, behind these bytes.
fn put_member<W: Write>(
    output: &mut TextWriter<'_, W>,
    before: &[u8],
    name: &[u8],
    number: u64,
) -> Result<(), TextFault> {
    output.put(before)?;
    output.put(b"\"")?;
    output.put(name)?;
    output.put(b"\":")?;
    put_number(output, number)
}

/// What separates the member of an object with this number, from 0, from the one before it.
fn separator(number: usize) -> &'static [u8] {
    if number == 0 { b"" } else { b"," }
}

/// Puts how many connections there were, and how many messages wait.
fn put_connections<W: Write>(
    output: &mut TextWriter<'_, W>,
    totals: &Totals,
) -> Result<(), TextFault> {
    put_member(output, b",\"connections\":{", b"made", totals.made)?;
    put_member(output, b",", b"failed", totals.failed)?;
    put_member(output, b",", b"lost", totals.lost)?;
    put_member(output, b"},", b"waiting", totals.waiting)
}

/// Puts what a filter made of the messages, and why messages were settled by default.
fn put_outcomes<W: Write>(
    output: &mut TextWriter<'_, W>,
    totals: &Totals,
) -> Result<(), TextFault> {
    output.put(b",\"settled\":{")?;
    for (number, settled) in Settled::ALL.iter().enumerate() {
        let count = totals.settled(*settled);
        put_member(output, separator(number), settled.name(), count)?;
    }
    output.put(b"},\"default\":{")?;
    for (number, cause) in Cause::ALL.iter().enumerate() {
        let count = totals.defaults(*cause);
        put_member(output, separator(number), cause.name(), count)?;
    }
    output.put(b"}")
}

/// Puts how long replies took, in microseconds.
fn put_latencies<W: Write>(
    output: &mut TextWriter<'_, W>,
    totals: &Totals,
) -> Result<(), TextFault> {
    output.put(b",\"latency\":{")?;
    for (number, timed) in Timed::ALL.iter().enumerate() {
        if let Some(latencies) = totals.latencies(*timed) {
            output.put(separator(number))?;
            put_figures(output, *timed, latencies)?;
        }
    }
    output.put(b"}")
}

/// Puts how long replies to this took.
fn put_figures<W: Write>(
    output: &mut TextWriter<'_, W>,
    timed: Timed,
    latencies: &Latencies,
) -> Result<(), TextFault> {
    let figures = Figures::of(latencies);
    output.put(b"\"")?;
    output.put(timed.name())?;
    put_member(output, b"\":{", b"count", figures.count)?;
    put_member(output, b",", b"p50", figures.p50)?;
    put_member(output, b",", b"p90", figures.p90)?;
    put_member(output, b",", b"p99", figures.p99)?;
    put_member(output, b",", b"p99.9", figures.p999)?;
    put_member(output, b",", b"most", figures.most)?;
    output.put(b"}")
}
