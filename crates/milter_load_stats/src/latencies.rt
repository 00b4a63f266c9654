//! Latencies and their percentiles.

ghost use Rattle.std.specs.Prelude.{◌≡◌, ◌+◌, ◌^◌, ◌<◌, ◌≤◌, ℕ, List, [], ◌∷◌, IfOk, IfSome, None, length};
ghost use Rattle.milter_load_stats.specs.Tallies.{IsPercentile, Tallied, greatest_of, rank_of};

use crate::bucket::{BUCKETS, bucket_of, highest_in};
use std::alloc::{AllocError, Global};
use std::marker::Model;

/// How many parts of a whole a per mille is of.
const WHOLE: u64 = 1_000;

/// Latencies in microseconds, each counted in a bucket. A bucket has at most a sixty-fourth of its values' size.
#[derive(Debug, Drop)]
pub struct Latencies {
    counts: Vec<u64>,
    total: u64,
    greatest: u32,
}

impl Model for Latencies {
    ghost use Rattle.std.specs.Prelude.{◌≡◌, length};
    ghost use Rattle.milter_load_stats.specs.Tallies.{Tally};
    ghost use Rattle.milter_load_stats.specs.declared.bucket.TheConstants.{BUCKETS};

    ghost Value = { Tally };

    ghost view = { λ l. record { counts = l.counts.items; total = l.total; greatest = l.greatest } };

    ghost invariant = { λ l. length l.counts.items ≡ BUCKETS };
}

impl Latencies {
    /// Nothing is recorded. Allocates all memory that it needs, 13,824 bytes.
    pub fn new(alloc: Global) -> Result<Self, AllocError>
        ensures { IfOk result (λ l. Tallied l []) }
    {
        let counts = vec![in alloc; 0u64; BUCKETS]?;
        Ok(Latencies {
            counts,
            total: 0,
            greatest: 0,
        })
    }

    /// Records a latency of so many microseconds; none after 2^64 - 1 others. Doesn't allocate.
    pub fn record(&mut self, micros: u32)
        ensures { (values : List ℕ) → Tallied self.old values → length values + 1 < 2 ^ 64 →
            Tallied self.new (micros ∷ values) }
    {
        let Some(total) = self.total.checked_add(1) else {
            return;
        };
        self.total = total;
        self.greatest = self.greatest.max(micros);
        let bucket = bucket_of(micros);
        self.counts[bucket] = self.counts[bucket].saturating_add(1);
    }

    /// How many latencies were recorded. Doesn't allocate.
    pub fn count(&self) -> u64
        ensures { (values : List ℕ) → Tallied self.now values → result ≡ length values }
    {
        self.total
    }

    /// The longest of them, exactly; 0 where there is none. Doesn't allocate.
    pub fn greatest(&self) -> u32
        ensures { (values : List ℕ) → Tallied self.now values → result ≡ greatest_of values }
    {
        self.greatest
    }

    /// What so many of a thousand latencies took at most, by nearest rank: the highest value of the bucket that has the
    /// value of that rank. None where nothing is recorded. Doesn't allocate.
    pub fn percentile(&self, per_mille: u32) -> Option<u64>
        requires some { 0 < per_mille }
        requires whole { per_mille ≤ 1000 }
        ensures exact { (values : List ℕ) → Tallied self.now values →
            IfSome result (λ limit. IsPercentile per_mille values limit) }
        ensures none { (values : List ℕ) → Tallied self.now values → result ≡ None → values ≡ [] }
    {
        if self.total == 0 {
            return None;
        }
        let rank = rank_of(self.total, per_mille);
        let mut within = 0u64;
        for bucket in 0..BUCKETS {
            within = within.saturating_add(self.counts[bucket]);
            if within >= rank {
                return Some(highest_in(bucket));
            }
        }
        None
    }
}

/// The rank of a percentile among so many values, rounded up.
fn rank_of(total: u64, per_mille: u32) -> u64
    requires { per_mille ≤ 1000 }
    ensures { result ≡ rank_of per_mille total }
{
    let per_mille = u64::from(per_mille);
    let rest = total % WHOLE;
    total / WHOLE * per_mille + (rest * per_mille + (WHOLE - 1)) / WHOLE
}
