//! The buckets of latencies.

ghost use Rattle.std.specs.Prelude.{◌≡◌, ◌<◌, ◌+◌, ◌*◌, ◌^◌, ◌≤◌, ℕ};
ghost use Rattle.milter_load_stats.specs.Buckets as buckets;
ghost use Rattle.milter_load_stats.specs.Buckets.{bucket_of, highest_in, lowest_in};
ghost use Rattle.milter_load_stats.specs.declared.bucket.TheConstants.{BUCKETS};

/// How many buckets a power of two has, from 128 on.
pub const OCTAVE: usize = 64;

/// How many buckets there are: those of the powers of two from 128 to 2,147,483,648, and 128 for what is below.
pub const BUCKETS: usize = 1_728;

/// The power of two by which the values of the widest buckets are divided.
const OCTAVES: u32 = 25;

/// The bucket of a value.
pub(crate) fn bucket_of(value: u32) -> usize
    ensures bucket { result ≡ bucket_of value }
    ensures within { result < BUCKETS }
{
    let octave = OCTAVES.saturating_sub(value.leading_zeros());
    let place = value >> octave;
    OCTAVE * octave as usize + place as usize
}

/// The highest value of a bucket. Doesn't allocate.
pub fn highest_in(bucket: usize) -> u64
    requires { bucket < BUCKETS }
    ensures { result ≡ buckets.highest_in bucket }
{
    let octave = (bucket / OCTAVE).saturating_sub(1);
    let place = bucket - OCTAVE * octave;
    (place as u64 + 1) * (1u64 << octave) - 1
}

/// A value is between the lowest and the highest of its bucket, which are at most a sixty-fourth of it apart; and where
/// one bucket ends the next one begins.
pub fn buckets_have_their_values()
    ensures lowest { (value : ℕ) → value < 2 ^ 32 → lowest_in (bucket_of value) ≤ value }
    ensures highest { (value : ℕ) → value < 2 ^ 32 → value ≤ highest_in (bucket_of value) }
    ensures close { (value : ℕ) → value < 2 ^ 32 → 64 * highest_in (bucket_of value) ≤ 65 * value }
    ensures next { (bucket : ℕ) → lowest_in (bucket + 1) ≡ highest_in bucket + 1 }
{}
