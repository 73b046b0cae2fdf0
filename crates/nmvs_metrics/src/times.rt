//! How long something takes, counted in buckets.
ghost use Rattle.std.specs.Prelude.{◌≡◌, ◌<◌, ◌≤◌, ℕ, Some, slice_get};

use crate::counters::Counters;
use crate::{Bucket, Histogram};
use std::alloc::{AllocError, Global};
use std::sync::atomic::{AtomicU64, Ordering};

/// The longest time of each bucket, in nanoseconds; those of the last bucket are longer (own). Article 35(1)(f) asks for
/// replies within 300 milliseconds.
const BOUNDS: [u64; 12] = [
    100_000,
    500_000,
    1_000_000,
    5_000_000,
    10_000_000,
    50_000_000,
    100_000_000,
    300_000_000,
    500_000_000,
    1_000_000_000,
    5_000_000_000,
    10_000_000_000,
];

/// The same in seconds, as the page has it, and the bound of the last bucket.
const SECONDS: [&str; 13] = [
    "0.0001", "0.0005", "0.001", "0.005", "0.01", "0.05", "0.1", "0.3", "0.5", "1", "5", "10",
    "+Inf",
];

/// The bucket of a time of this many nanoseconds.
fn bucket_of(nanoseconds: u64) -> usize
    ensures within { (bound : ℕ) → slice_get BOUNDS result ≡ Some bound → nanoseconds ≤ bound }
    ensures longer { (i : ℕ) (bound : ℕ) → i < result → slice_get BOUNDS i ≡ Some bound → bound < nanoseconds }
{
    for place in 0..BOUNDS.len() {
        if nanoseconds <= BOUNDS[place] {
            return place;
        }
    }
    BOUNDS.len()
}

/// Times by their bucket, and their sum. Threads share it, and none waits for another.
#[derive(Drop)]
pub(crate) struct Times {
    counts: Counters,
    nanoseconds: AtomicU64,
}

impl Times {
    /// None yet.
    pub(crate) fn new(alloc: Global) -> Result<Times, AllocError> {
        let counts = Counters::new(alloc, SECONDS.len())?;
        Ok(Times {
            counts,
            nanoseconds: AtomicU64::new(0),
        })
    }

    /// Counts this time as often as `count` says.
    pub(crate) fn add(&self, nanoseconds: u64, count: u64) {
        self.counts.add(bucket_of(nanoseconds), count);
        let all = nanoseconds.wrapping_mul(count);
        self.nanoseconds.fetch_add(all, Ordering::SeqCst);
    }

    /// Adds these times to a histogram.
    pub(crate) fn add_to(&self, histogram: &mut Histogram) {
        for place in 0..histogram.buckets.len() {
            if let Some(bucket) = histogram.buckets.get_mut(place) {
                bucket.count = bucket.count.wrapping_add(self.counts.at(place));
            }
        }
        let nanoseconds = self.nanoseconds.load(Ordering::SeqCst);
        histogram.nanoseconds = histogram.nanoseconds.wrapping_add(nanoseconds);
    }
}

/// A histogram of nothing.
pub(crate) fn empty(alloc: Global) -> Result<Histogram, AllocError> {
    let mut buckets = Vec::with_capacity(alloc, SECONDS.len())?;
    for bound in SECONDS {
        buckets.push(Bucket { bound, count: 0 })?;
    }
    Ok(Histogram {
        buckets,
        nanoseconds: 0,
    })
}
