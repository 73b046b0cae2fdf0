//! Counters that threads share.
use std::alloc::{AllocError, Global};
use std::sync::atomic::{AtomicU64, Ordering};

/// Counters in a row, which any thread counts on, and none waits for.
#[derive(Drop)]
pub(crate) struct Counters {
    list: Vec<AtomicU64>,
}

impl Counters {
    /// This number of counters, each at 0.
    pub(crate) fn new(alloc: Global, count: usize) -> Result<Counters, AllocError> {
        let mut list = Vec::with_capacity(alloc, count)?;
        for _ in 0..count {
            list.push(AtomicU64::new(0))?;
        }
        Ok(Counters { list })
    }

    /// Counts this number more at this place.
    pub(crate) fn add(&self, place: usize, count: u64) {
        if let Some(counter) = self.list.get(place) {
            counter.fetch_add(count, Ordering::SeqCst);
        }
    }

    /// Counts one less at this place.
    pub(crate) fn subtract_one(&self, place: usize) {
        if let Some(counter) = self.list.get(place) {
            counter.fetch_sub(1, Ordering::SeqCst);
        }
    }

    /// Sets the count at this place.
    pub(crate) fn set(&self, place: usize, count: u64) {
        if let Some(counter) = self.list.get(place) {
            counter.store(count, Ordering::SeqCst);
        }
    }

    /// The count at this place: 0 if there is none.
    pub(crate) fn at(&self, place: usize) -> u64 {
        match self.list.get(place) {
            Some(counter) => counter.load(Ordering::SeqCst),
            None => 0,
        }
    }
}
