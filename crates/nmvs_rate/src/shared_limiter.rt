//! A rate limiter that several workers share.
ghost use Rattle.std.specs.Prelude.{◌≡◌, Ok, true, IsNone};

use crate::{Rate, RateLimiter};
use nmvs_identifier::Name;
use std::alloc::{AllocError, Allocator};
use std::rt::Clock;
use std::sync::{Mutex, Wait};
use std::time::Instant;

/// A rate limiter under a lock, and the instant that its moments count from.
#[derive(Drop)]
pub struct SharedLimiter<A: Allocator> {
    limiter: Mutex<RateLimiter<A>>,
    begun: Option<Instant>,
}

impl<A: Allocator + Copy> SharedLimiter<A> {
    /// A limiter without buckets. Moments count from now on, by a clock of the machine that never goes back. If it
    /// cannot be read, buckets gain no lines.
    pub fn new(rt: &impl Clock, alloc: A, rate: Rate) -> SharedLimiter<A> {
        SharedLimiter {
            limiter: Mutex::new(RateLimiter::new(alloc, rate)),
            begun: Instant::now(rt).ok(),
        }
    }
}

/// Whether a line of this user is let through now. Each line is, if there is no limiter. It waits for the lock.
///
/// # Errors
///
/// Memory for the user's bucket was refused.
pub fn admit<R: Wait + Clock, A: Allocator>(
    rt: &R,
    limiter: Option<&SharedLimiter<A>>,
    user: &Name,
) -> Result<bool, AllocError>
    ensures { IsNone limiter.entry → result ≡ Ok true }
{
    let Some(shared) = limiter else {
        return Ok(true);
    };
    let mut limiter = shared.limiter.lock(rt);
    limiter.admit(user, milliseconds_since(rt, shared.begun))
}

/// The milliseconds since an instant, or 0 if the clock cannot be read.
fn milliseconds_since(rt: &impl Clock, begun: Option<Instant>) -> u64 {
    match (Instant::now(rt), begun) {
        (Ok(now), Some(begun)) => {
            u64::try_from(now.duration_since(begun).as_millis()).unwrap_or(u64::MAX)
        }
        _ => 0,
    }
}
