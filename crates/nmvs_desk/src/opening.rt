//! The opening of a repository.
ghost use Rattle.std.specs.Prelude.{◌≡◌, ◌+◌, ◌-◌, ◌<◌, ◌≤◌, ◌↔◌, ◌⊎◌, ℕ, [], All, map, vec_len, vec_capacity, length, IfOk, IsErrOf, OnOk, OnErr};
ghost use Rattle.nmvs_desk.specs.Opening.{table_of, AreLocked, AreNew, IsNew, IsOpened};
ghost use Rattle.nmvs_desk.specs.Placing.{IsPartOf};
ghost use Rattle.nmvs_desk.specs.Settlement.{row};

use crate::lock::Slot;
use crate::locked::Locked;
use crate::{Clerk, MOST_CLERKS, MOST_SHARDS, OpenFault, Repository};
use nmvs_directory::{Naming, Window};
use nmvs_history::{Histories, Keeper, Token};
use nmvs_shard::Shard;
use std::alloc::{AllocError, Allocator, Global};
use std::marker::Model;

/// The keepers of the histories of one to eight shards, which have no entry yet. Contracts see these histories, in order.
#[derive(Drop)]
pub struct Keepers<'a, B: Allocator = Global> {
    list: Vec<Keeper<&'a B>, &'a B>,
}

impl<'a, B: Allocator> Model for Keepers<'a, B> {
    ghost use Rattle.std.specs.Prelude.{◌<◌, ◌≤◌, All, List, length, map};
    ghost use Rattle.nmvs_history.specs.Views.{HistoryId, KeeperView};
    ghost use Rattle.nmvs_desk.specs.declared.repository.TheConstants.{MOST_SHARDS};
    ghost use Rattle.nmvs_desk.specs.Opening.{IsFresh};

    ghost Value = { List HistoryId };

    ghost view = { λ k. map (λ (keeper : KeeperView). keeper.table) k.list.items };

    ghost invariant = { λ k. All IsFresh k.list.items × (0 < length k.list.items) × (length k.list.items ≤ MOST_SHARDS) };
}

impl<'a, B: Allocator> Keepers<'a, B> {
    /// Keepers for this number of shards.
    ///
    /// # Errors
    ///
    /// `Count` exactly if the shards are not 1 to 8, else `Memory` if a growth was refused.
    pub fn new(alloc: &'a B, shards: usize) -> Result<Keepers<'a, B>, OpenFault>
        ensures shards { IfOk result (λ keepers. length keepers ≡ shards) }
        ensures count { IsErrOf result OpenFault.Count ↔ ((shards ≡ 0) ⊎ (MOST_SHARDS < shards)) }
    {
        if shards == 0 || shards > MOST_SHARDS {
            return Err(OpenFault::Count);
        }
        let mut list = Vec::with_capacity(alloc, shards)?;
        for _shard in 0..shards {
            list.push_reserved(Keeper::new(alloc)?);
        }
        Ok(Keepers { list })
    }
}

/// Puts each shard under its keeper, numbered in order.
fn keep_all<'a, H: Histories, B: Allocator>(
    alloc: &'a B,
    keepers: Keepers<'a, B>,
    shards: Vec<Shard<&'a B>, &'a B>,
) -> Result<Vec<Locked<'a, H, B>, &'a B>, AllocError>
    requires tables { (i : ℕ) → table_of keepers i ≡ H.tables i }
    requires many { vec_len shards ≡ length keepers }
    requires opening { (i : ℕ) → H.opening i ≡ row shards.items i }
    requires placed { (i : ℕ) → IsPartOf H.shards i (row shards.items i) }
    ensures locked { IfOk result (λ locked. AreLocked 8 (length keepers.entry) H.opening locked.items) }
    ensures count { (0 < length keepers.entry) × (length keepers.entry ≤ MOST_SHARDS) }
{
    let Keepers { mut list } = keepers;
    let mut shards = shards;
    let mut locked = Vec::with_capacity(alloc, list.len())?;
    // One by one, for the proof: the loop's invariant speaks of the lists that are left.
    while !list.is_empty() {
        let index = locked.len();
        let keeper = list.remove(0);
        let shard = shards.remove(0);
        locked.push_reserved(Locked::new(keeper, shard, index));
    }
    Ok(locked)
}

/// A token of each shard, for one clerk.
fn tokens_of<'a, H: Histories, B: Allocator>(
    alloc: &'a B,
    shards: &mut Vec<Locked<'a, H, B>, &'a B>,
) -> Result<Vec<Token, &'a B>, AllocError>
    requires { (left : ℕ) × AreLocked (left + 1) H.shards H.opening shards.old.items }
    ensures given { (left : ℕ) → AreLocked (left + 1) H.shards H.opening shards.old.items
        → OnOk result (AreLocked left H.shards H.opening shards.new.items) }
    ensures new { IfOk result (λ tokens. AreNew H.tables H.shards H.opening H.shards tokens.items) }
{
    let mut tokens = Vec::with_capacity(alloc, shards.len())?;
    for index in 0..shards.len() {
        tokens.push_reserved(shards[index].token());
    }
    Ok(tokens)
}

/// A token of each shard for each clerk.
fn give_tokens<'a, H: Histories, B: Allocator>(
    alloc: &'a B,
    clerks: usize,
    shards: &mut Vec<Locked<'a, H, B>, &'a B>,
) -> Result<Vec<Vec<Token, &'a B>, &'a B>, AllocError>
    requires few { clerks ≤ MOST_CLERKS }
    requires locked { AreLocked 8 H.shards H.opening shards.old.items }
    ensures given { OnOk result (AreLocked (8 - clerks) H.shards H.opening shards.new.items) }
    ensures clerks { IfOk result (λ sets. vec_len sets ≡ clerks) }
    ensures new { IfOk result (λ sets. All (λ tokens. AreNew H.tables H.shards H.opening H.shards tokens.items) sets.items) }
{
    let mut sets = Vec::with_capacity(alloc, clerks)?;
    for _clerk in 0..clerks {
        sets.push_reserved(tokens_of(alloc, shards)?);
    }
    Ok(sets)
}

/// Locks the shards, in order.
pub(crate) fn lock_all<'a, H: Histories, B: Allocator>(
    shards: &mut Vec<Locked<'a, H, B>, &'a B>,
    slots: &mut Vec<Slot<'a, H, B>, &'a B>,
)
    requires few { All (λ h. h.index < MOST_SHARDS) shards.old.items }
    requires opened { All (IsOpened H.clerks) shards.old.items }
    requires empty { slots.old.items ≡ [] }
    requires room { vec_len shards.old ≤ vec_capacity slots.old }
    ensures { slots.new.items ≡ map (λ h. h.index) shards.old.items }
{
    // One by one, for the proof: the loop's invariant speaks of the list that is left.
    while !shards.is_empty() {
        slots.push_reserved(Slot::new(shards.remove(0)));
    }
}

/// A clerk for each window, in order, with the tokens of the same place.
fn clerks_over<'a, J: Naming, H: Histories, B: Allocator>(
    alloc: &'a B,
    windows: &mut Vec<Window<J, &'a B>, &'a B>,
    sets: &mut Vec<Vec<Token, &'a B>, &'a B>,
    clerks: &mut Vec<Clerk<'a, J, H, B>, &'a B>,
)
    requires many { vec_len sets.old ≡ vec_len windows.old }
    requires new { All (λ tokens. AreNew H.tables H.shards H.opening H.shards tokens.items) sets.old.items }
    requires empty { clerks.old.items ≡ [] }
    requires room { vec_len windows.old ≤ vec_capacity clerks.old }
    ensures seen { map (λ c. c.seen) clerks.new.items ≡ windows.old.items }
    ensures new { All (IsNew H.shards H.opening) clerks.new.items }
    ensures windows { windows.new.items ≡ [] }
{
    // One by one, for the proof: the loop's invariant speaks of the list that is left.
    while !windows.is_empty() {
        let window = windows.remove(0);
        clerks.push_reserved(Clerk::new(alloc, window, sets.remove(0)));
    }
}

impl<'a, H: Histories, B: Allocator> Repository<'a, H, B> {
    /// Opens a repository over these shards, as they are, with the keeper of each, and a clerk for each window, in order. The
    /// entries of the shards have no receipt, and each clerk has seen them.
    ///
    /// Condition: each entry's product code belongs to its shard among these. Each question was new where it was put.
    ///
    /// # Errors
    ///
    /// `AllocError` if a growth was refused. Then the windows stay in their list, and the keepers and the shards are spent.
    pub fn open<J: Naming>(
        alloc: &'a B,
        keepers: Keepers<'a, B>,
        shards: Vec<Shard<&'a B>, &'a B>,
        windows: &mut Vec<Window<J, &'a B>, &'a B>,
    ) -> Result<(Repository<'a, H, B>, Vec<Clerk<'a, J, H, B>, &'a B>), AllocError>
        requires tables { (i : ℕ) → table_of keepers i ≡ H.tables i }
        requires named { (H.shards ≡ length keepers) × (H.clerks ≡ vec_len windows.old)
            × ((i : ℕ) → H.opening i ≡ row shards.items i) }
        requires many { vec_len shards ≡ length keepers }
        requires placed { (i : ℕ) → IsPartOf (length keepers) i (row shards.items i) }
        requires few { vec_len windows.old ≤ MOST_CLERKS }
        ensures shards { IfOk result (λ r. r.0.shards ≡ length keepers.entry) }
        ensures clerks { IfOk result (λ r. (r.0.clerks ≡ vec_len windows.old)
            × (map (λ c. c.seen) r.1.items ≡ windows.old.items)) }
        ensures new { IfOk result (λ r. All (IsNew (length keepers.entry) (row shards.entry.items)) r.1.items) }
        ensures taken { OnOk result (windows.new.items ≡ []) }
        ensures stay { OnErr result (windows.new ≡ windows.old) }
    {
        let mut locked = keep_all(alloc, keepers, shards)?;
        let count = windows.len();
        let mut sets = give_tokens(alloc, count, &mut locked)?;
        let mut clerks = Vec::with_capacity(alloc, count)?;
        let mut slots = Vec::with_capacity(alloc, locked.len())?;
        clerks_over(alloc, windows, &mut sets, &mut clerks);
        lock_all(&mut locked, &mut slots);
        let repository = Repository {
            slots,
            clerks: count,
        };
        Ok((repository, clerks))
    }
}
