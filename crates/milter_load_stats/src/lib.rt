//! How long replies took: latencies, counted in buckets of a bounded relative error, and their percentiles.
//!
//! A [`Latencies`] has a fixed number of buckets: one for each number of microseconds below 128, and 64 for each power
//! of two from there on, up to more than an hour. What is recorded costs no memory.
#![tactic(auto)]

mod bucket;
mod latencies;

pub use bucket::{BUCKETS, OCTAVE, buckets_have_their_values, highest_in};
pub use latencies::Latencies;
