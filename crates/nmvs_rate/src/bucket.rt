//! The bucket of a user.
ghost use Rattle.std.specs.Prelude.{◌≡◌};
ghost use Rattle.nmvs_rate.specs.Buckets.{after, filled, full, passes};

use crate::Rate;

/// The number of parts of a line. In each millisecond a bucket gains one part for each line a second of its rate.
const LINE: u64 = 1_000;

/// The lines that a user may still ask. Moments are in milliseconds since some beginning (own).
#[derive(Clone, Copy)]
pub struct Bucket {
    /// The parts of lines that were left at `moment`.
    parts: u64,
    /// The moment when a line was last taken out, or when the bucket began.
    moment: u64,
}

impl Bucket {
    /// A bucket with all lines of the burst.
    pub fn full(rate: Rate, now: u64) -> Bucket
        ensures { result ≡ full rate now }
    {
        Bucket {
            parts: rate.burst() * LINE,
            moment: now,
        }
    }

    /// The parts that are there at this moment.
    fn filled(&self, rate: Rate, now: u64) -> u64
        ensures { result ≡ filled rate self.now now }
    {
        let gained = rate.lines().saturating_mul(now.saturating_sub(self.moment));
        self.parts.saturating_add(gained).min(rate.burst() * LINE)
    }

    /// Takes a line out at this moment, if a whole one is there. Else it takes nothing.
    pub fn take(&mut self, rate: Rate, now: u64) -> bool
        ensures taken { result ≡ passes rate self.old now }
        ensures left { self.new ≡ after rate self.old now }
    {
        let parts = self.filled(rate, now);
        if parts < LINE {
            return false;
        }
        *self = Bucket {
            parts: parts - LINE,
            moment: self.moment.max(now),
        };
        true
    }
}
