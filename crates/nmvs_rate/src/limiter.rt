//! The rate limiter: a bucket for each user.
ghost use Rattle.std.specs.Prelude.{◌≡◌, None, IfOk, OnErr};
ghost use Rattle.nmvs_identifier.specs.Name.{Name as TheName};
ghost use Rattle.nmvs_rate.specs.Limits.{Asks, Keeps, asked_of, bucket_of, passes_by};

use crate::{Bucket, Rate};
use indexmap::IndexMap;
use nmvs_identifier::Name;
use std::alloc::{AllocError, Allocator};
use std::hash::{BuildHasherDefault, FoldHasher};

/// Limits the lines of each user to one rate. Moments are in milliseconds since some beginning. It keeps a bucket for each
/// user of whom a line was asked.
#[derive(Drop)]
pub struct RateLimiter<A: Allocator> {
    rate: Rate,
    buckets: IndexMap<Name, Bucket, BuildHasherDefault<FoldHasher>, A>,
}

impl<A: Allocator + Copy> RateLimiter<A> {
    /// No buckets yet.
    pub fn new(alloc: A, rate: Rate) -> RateLimiter<A>
        ensures rate { result.rate ≡ rate }
        ensures none { (user : TheName) → bucket_of result.buckets user ≡ None }
    {
        RateLimiter {
            rate,
            buckets: IndexMap::new(alloc),
        }
    }
}

impl<A: Allocator> RateLimiter<A> {
    /// Whether a line of this user is let through at this moment. Then it is taken out of the user's bucket. The bucket of a
    /// user of whom no line was asked before is full.
    ///
    /// # Errors
    ///
    /// Memory for a bucket was refused. Nothing changes.
    pub fn admit(&mut self, user: &Name, now: u64) -> Result<bool, AllocError>
        ensures passes { IfOk result (λ passed. passed ≡ passes_by self.old.rate (bucket_of self.old.buckets user.now) now) }
        ensures asked { IfOk result (λ passed. Asks self.old.rate self.old.buckets user.now now self.new.buckets) }
        ensures refused { OnErr result (Keeps self.old.buckets self.new.buckets) }
        ensures rate { self.new.rate ≡ self.old.rate }
    {
        let mut bucket = self.bucket_of(user, now);
        let passed = bucket.take(self.rate, now);
        match self.buckets.insert(*user, bucket) {
            Ok(_) => Ok(passed),
            Err(_) => Err(AllocError),
        }
    }

    /// The bucket of a user, or a full one for a user who has none.
    fn bucket_of(&self, user: &Name, now: u64) -> Bucket
        ensures { result ≡ asked_of self.now.rate (bucket_of self.now.buckets user.now) now }
    {
        match self.buckets.get(user) {
            Some(bucket) => *bucket,
            None => Bucket::full(self.rate, now),
        }
    }
}
