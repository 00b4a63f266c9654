//! The figures of a report, and how they are put.

use crate::schedule::SECOND;
use itoa::Buffer;
use milter_load_stats::Latencies;
use milter_text::{TextFault, TextWriter};
use std::io::Write;

/// The microseconds of a millisecond.
const MILLI: u64 = 1_000;

/// What some of a thousand replies took at most, and all of them, in microseconds.
#[derive(Clone, Copy)]
pub(crate) struct Figures {
    pub(crate) count: u64,
    pub(crate) p50: u64,
    pub(crate) p90: u64,
    pub(crate) p99: u64,
    pub(crate) p999: u64,
    pub(crate) most: u64,
}

impl Figures {
    /// Those of some latencies. Doesn't allocate.
    pub(crate) fn of(latencies: &Latencies) -> Figures {
        let most = u64::from(latencies.greatest());
        Figures {
            count: latencies.count(),
            p50: latencies.percentile(500).unwrap_or(0).min(most),
            p90: latencies.percentile(900).unwrap_or(0).min(most),
            p99: latencies.percentile(990).unwrap_or(0).min(most),
            p999: latencies.percentile(999).unwrap_or(0).min(most),
            most,
        }
    }
}

/// Puts a number in decimal.
pub(crate) fn put_number<W: Write>(
    output: &mut TextWriter<'_, W>,
    number: u64,
) -> Result<(), TextFault> {
    let mut digits = Buffer::new();
    output.put(digits.format(number).as_bytes())
}

/// Puts how many there were a second, in so many microseconds, with one decimal.
pub(crate) fn put_a_second<W: Write>(
    output: &mut TextWriter<'_, W>,
    count: u64,
    micros: u64,
) -> Result<(), TextFault> {
    let tenths = count
        .saturating_mul(10 * SECOND)
        .checked_div(micros)
        .unwrap_or(0);
    put_number(output, tenths / 10)?;
    output.put(b".")?;
    put_number(output, tenths % 10)
}

/// Puts microseconds as seconds, with three decimals.
pub(crate) fn put_seconds<W: Write>(
    output: &mut TextWriter<'_, W>,
    micros: u64,
) -> Result<(), TextFault> {
    let millis = micros / MILLI % MILLI;
    put_number(output, micros / SECOND)?;
    output.put(b".")?;
    put_number(output, millis / 100)?;
    put_number(output, millis / 10 % 10)?;
    put_number(output, millis % 10)
}
