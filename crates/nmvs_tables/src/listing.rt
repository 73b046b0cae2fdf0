//! The batches of each product code, in the order of their first accepted uploads.
ghost use Rattle.std.specs.Prelude.{◌≡◌, ◌+◌, ◌<◌, ◌^◌, [], ◌∷◌, ◌++◌, List, OnOk, IsOk};
ghost use Rattle.indexmap.specs.IndexMap.{get};
ghost use Rattle.nmvs_identifier.specs.ProductCode.{ProductCode};
ghost use Rattle.nmvs_tables.specs.declared.batches.BatchKey.{BatchKey};
ghost use Rattle.nmvs_tables.specs.Listing.{same_index, listed_in, AreListed, HasRoomToList};

use crate::HashKey;
use crate::batches::BatchKey;
use crate::writes::{find, insert, write};
use indexmap::IndexMap;
use nmvs_identifier::{Batch, ProductCode};
use std::alloc::{AllocError, Allocator};

/// An index among the batches of a product code, counted from 0.
#[derive(Clone, Copy, PartialEq, Eq, Hash)]
pub(crate) struct BatchIndex {
    pub code: ProductCode,
    pub index: u64,
}

/// The number of batches of each product code, and the batch at each index.
#[derive(Drop)]
pub(crate) struct Listing<A: Allocator> {
    counts: IndexMap<ProductCode, u64, HashKey, A>,
    batches: IndexMap<BatchIndex, Batch, HashKey, A>,
}

impl<A: Allocator + Copy> Listing<A> {
    /// The listing of no batches.
    pub fn new(alloc: A, key: HashKey) -> Self
        ensures { AreListed result [] }
    {
        Listing {
            counts: IndexMap::with_hasher(alloc, key),
            batches: IndexMap::with_hasher(alloc, key),
        }
    }
}

impl<A: Allocator> Listing<A> {
    /// The number of batches of a product code.
    pub fn count(&self, code: &ProductCode) -> u64
        ensures { result ≡ listed_in self.now.counts code.now }
    {
        self.counts.get(code).copied().unwrap_or(0)
    }

    /// The batch at an index.
    pub fn at(&self, index: &BatchIndex) -> Option<Batch>
        ensures { result ≡ get same_index self.now.batches index.now }
    {
        self.batches.get(index).copied()
    }

    /// Makes room for one more batch, and changes nothing else. It fails only if there is no memory.
    pub fn reserve(&mut self) -> Result<(), AllocError>
        ensures room { OnOk result (HasRoomToList self.new) }
        ensures kept { (bs : List BatchKey) → AreListed self.old bs → AreListed self.new bs }
        ensures succeeds { HasRoomToList self.old → IsOk result }
    {
        self.counts.reserve(1)?;
        self.batches.reserve(1)
    }

    /// Lists a batch after those of its product code. Room was made for it.
    pub fn note(&mut self, batch: &BatchKey)
        requires room { HasRoomToList self.old }
        requires fits { (c : ProductCode) → listed_in self.old.counts c + 1 < 2 ^ 64 }
        ensures { (bs : List BatchKey) →
            AreListed self.old bs → AreListed self.new (bs ++ batch.now ∷ []) }
    {
        let (found, old) = find(&self.counts, &batch.code);
        let index = old.unwrap_or(0);
        write(&mut self.counts, found, batch.code, index + 1);
        let listed = BatchIndex {
            code: batch.code,
            index,
        };
        insert(&mut self.batches, listed, batch.batch);
    }
}
