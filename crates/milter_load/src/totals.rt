//! What came of a load.

use crate::outcome::{Cause, Settled};
use crate::timed::{KINDS, Timed};
use milter_load_stats::Latencies;
use std::alloc::{AllocError, Global};

/// What came of a load: of its messages, of its connections, and how long replies took.
#[derive(Drop)]
pub struct Totals {
    latencies: Vec<Latencies>,
    settled: [u64; 5],
    defaults: [u64; 4],
    /// The bytes that were sent.
    pub sent: u64,
    /// The bytes that came.
    pub received: u64,
    /// The connections that were made.
    pub made: u64,
    /// The times that none could be made.
    pub failed: u64,
    /// The connections that were lost.
    pub lost: u64,
    /// The messages that were due and not begun.
    pub waiting: u64,
    /// When the first message was due.
    pub start: u64,
    // When the last message was settled.
    last: u64,
}

impl Totals {
    /// Nothing came yet. Allocates all memory that it needs.
    pub fn new(alloc: Global) -> Result<Self, AllocError> {
        let mut latencies = Vec::with_capacity(alloc, KINDS)?;
        for _ in 0..KINDS {
            latencies.push(Latencies::new(alloc)?)?;
        }
        Ok(Totals {
            latencies,
            settled: [0; 5],
            defaults: [0; 4],
            sent: 0,
            received: 0,
            made: 0,
            failed: 0,
            lost: 0,
            waiting: 0,
            start: 0,
            last: 0,
        })
    }

    /// How long replies to this took. Doesn't allocate.
    pub fn latencies(&self, timed: Timed) -> Option<&Latencies> {
        self.latencies.get(timed.number())
    }

    /// How many messages a filter settled so. Doesn't allocate.
    pub fn settled(&self, settled: Settled) -> u64 {
        self.settled.get(settled.number()).copied().unwrap_or(0)
    }

    /// How many messages were settled by default for this cause. Doesn't allocate.
    pub fn defaults(&self, cause: Cause) -> u64 {
        self.defaults.get(cause.number()).copied().unwrap_or(0)
    }

    /// How many microseconds it took until the last message was settled. Doesn't allocate.
    pub(crate) fn elapsed(&self) -> u64 {
        self.last.saturating_sub(self.start)
    }

    /// How many messages a filter settled. Doesn't allocate.
    pub fn by_filter(&self) -> u64 {
        sum_of(&self.settled)
    }

    /// How many messages were settled. Doesn't allocate.
    pub fn messages(&self) -> u64 {
        self.by_filter().saturating_add(self.by_default())
    }

    /// How many messages were settled by default. Doesn't allocate.
    pub fn by_default(&self) -> u64 {
        sum_of(&self.defaults)
    }

    /// Notes how many microseconds the reply to this took. Doesn't allocate.
    pub(crate) fn record(&mut self, timed: Timed, micros: u64) {
        let micros = u32::try_from(micros).unwrap_or(u32::MAX);
        if let Some(latencies) = self.latencies.get_mut(timed.number()) {
            latencies.record(micros);
        }
    }

    /// A filter settled a message so, at this time. Doesn't allocate.
    pub(crate) fn on_settled(&mut self, settled: Settled, now: u64) {
        if let Some(count) = self.settled.get_mut(settled.number()) {
            *count = count.saturating_add(1);
        }
        self.last = now;
    }

    /// A message was settled by default for this cause, at this time. Doesn't allocate.
    pub(crate) fn on_default(&mut self, cause: Cause, now: u64) {
        if let Some(count) = self.defaults.get_mut(cause.number()) {
            *count = count.saturating_add(1);
        }
        self.last = now;
    }
}

/// The sum of some counts.
fn sum_of(counts: &[u64]) -> u64 {
    let mut sum = 0u64;
    for count in counts {
        sum = sum.saturating_add(*count);
    }
    sum
}
