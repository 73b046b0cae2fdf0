//! An entry by its place.
ghost use Rattle.std.specs.Prelude.{◌≡◌, ◌<◌, true, Some, is_some, length, slice_get};

use nmvs_rules::Entry;
use nmvs_shard::Shard;
use std::alloc::Allocator;
use std::marker::Model;

/// An entry of a shard's trail, by its place, in 16 bytes. Contracts see the entry.
#[derive(Drop)]
pub(crate) struct Placed<'a, A: Allocator> {
    shard: &'a Shard<A>,
    place: usize,
    ghost there: { is_some (slice_get shard.now place) ≡ true },
}

impl<'a, A: Allocator> Model for Placed<'a, A> {
    ghost use Rattle.std.specs.Prelude.{slice_get};
    ghost use Rattle.nmvs_rules.specs.declared.entry.Entry.{Entry};
    ghost use Rattle.nmvs_inspect.specs.Placed.{entry_in};

    ghost Value = { Entry };

    ghost view = { λ p. entry_in (slice_get p.shard.now p.place) p.there };
}

impl<'a, A: Allocator> Placed<'a, A> {
    /// The entry at a place of a shard's trail, counted from 0.
    pub(crate) fn new(shard: &'a Shard<A>, place: usize) -> Placed<'a, A>
        requires { place < length shard.now }
        ensures { slice_get shard.now place ≡ Some result }
    {
        Placed { shard, place }
    }

    /// The entry. Each call puts it together anew.
    pub(crate) fn entry(&self) -> Entry
        ensures { result ≡ self.now }
    {
        self.shard.entry_at(self.place).unwrap()
    }
}
