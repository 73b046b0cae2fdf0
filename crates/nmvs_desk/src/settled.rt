//! The values that a settlement hands out, or gives back.
ghost use Rattle.std.specs.Prelude.{◌≡◌, ◌<◌, None, Some, IfOk, length, replicate, slice_set, vec_len};

use crate::{Clerk, Receipt, Repository};
use nmvs_directory::Naming;
use nmvs_history::Histories;
use nmvs_shard::Shard;
use std::alloc::{AllocError, Allocator, Global};
use std::marker::Model;

/// The clerk that has the receipt, and the number of the receipt among those in hand, both counted from 0.
#[derive(Clone, Copy, PartialEq, Eq)]
pub struct Owner {
    pub clerk: usize,
    pub receipt: usize,
}

/// The owners of a trail's entries, for each place in order. `None` if nobody has a receipt in hand: the entry was there at the
/// opening, or its receipt was let go.
#[derive(Drop)]
pub struct Owners<'a, B: Allocator = Global> {
    list: Vec<Option<Owner>, &'a B>,
}

impl<'a, B: Allocator> Model for Owners<'a, B> {
    ghost use Rattle.std.specs.Prelude.{List, Option};
    ghost use Rattle.nmvs_desk.specs.declared.settled.Owner.{Owner};

    ghost Value = { List (Option Owner) };

    ghost view = { λ o. o.list.items };
}

impl<'a, B: Allocator> Owners<'a, B> {
    /// Room for the owners of this number of entries, with none noted yet.
    pub(crate) fn blank(alloc: &'a B, count: usize) -> Result<Owners<'a, B>, AllocError>
        ensures { IfOk result (λ owners. owners ≡ replicate count None) }
    {
        Ok(Owners {
            list: Vec::from_elem(alloc, None, count)?,
        })
    }

    /// Notes the owner of the entry at a place.
    pub(crate) fn note(&mut self, place: usize, owner: Owner)
        requires { place < length self.old }
        ensures { self.new ≡ slice_set self.old place (Some owner) }
    {
        self.list[place] = Some(owner);
    }

    /// The owners, in the order of the trail.
    pub fn owners(&self) -> &[Option<Owner>]
        ensures { result.now ≡ self.now }
    {
        self.list.as_slice()
    }
}

/// The receipts that a clerk had in hand, oldest first.
#[derive(Drop)]
pub struct Receipts<'a, B: Allocator = Global> {
    list: Vec<Receipt, &'a B>,
}

impl<'a, B: Allocator> Model for Receipts<'a, B> {
    ghost use Rattle.std.specs.Prelude.{List};
    ghost use Rattle.nmvs_desk.specs.declared.ask.Receipt.{Receipt};

    ghost Value = { List Receipt };

    ghost view = { λ r. r.list.items };
}

impl<'a, B: Allocator> Receipts<'a, B> {
    pub(crate) fn new(list: Vec<Receipt, &'a B>) -> Receipts<'a, B>
        ensures { result ≡ list.entry.items }
    {
        Receipts { list }
    }

    /// The receipts, oldest first.
    pub fn receipts(&self) -> &[Receipt]
        ensures { result.now ≡ self.now }
    {
        self.list.as_slice()
    }
}

/// The result of a settlement: the shards in order, the receipts of each clerk, and for each shard the owners of its trail's
/// entries.
#[derive(Drop)]
pub struct Settled<'a, B: Allocator = Global> {
    pub shards: Vec<Shard<&'a B>, &'a B>,
    pub receipts: Vec<Receipts<'a, B>, &'a B>,
    pub owners: Vec<Owners<'a, B>, &'a B>,
}

/// The repository and its clerks as they were before a refused settlement. It may be settled again.
#[derive(Drop)]
pub struct Unsettled<'a, J: Naming, H: Histories, B: Allocator = Global> {
    pub repository: Repository<'a, H, B>,
    pub clerks: Vec<Clerk<'a, J, H, B>, &'a B>,
    ghost all: { vec_len clerks ≡ repository.clerks },
}
