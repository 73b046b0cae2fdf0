//! The settlement of a repository.
ghost use Rattle.std.specs.Prelude.{◌≡◌, ◌-◌, ◌<◌, ◌≤◌, ℕ, [], All, Some, map, length, slice_get, vec_len, vec_capacity, IfOk, IfErr, OnErr};
ghost use mathlib.Core.List.{IsPrefix};
ghost use Rattle.nmvs_history.specs.Views.{AreBelow, ClosingView, TokenView};
ghost use Rattle.nmvs_desk.specs.declared.ask.Receipt.{Receipt};
ghost use Rattle.nmvs_desk.specs.Closing.{trails_of, seen_in, unlocked, with_token, blank_owners, Notes, AreNoted, AreApart, HavePlaces, AreClosing};
ghost use Rattle.nmvs_desk.specs.Opening.{IsOpened};
ghost use Rattle.nmvs_desk.specs.Views.{IsNumbered};
ghost use Rattle.nmvs_desk.specs.Settlement.{row, lists_of, AreDivided, IsOwned, IsSettled, Rises};
ghost use Rattle.nmvs_desk.specs.Trails.{IsKept, AreTrails};

use crate::lock::Slot;
use crate::locked::Locked;
use crate::opening::lock_all;
use crate::{
    Clerk, MOST_CLERKS, MOST_SHARDS, Owner, Owners, Receipt, Receipts, Repository, Settled,
    Unsettled,
};
use nmvs_directory::Naming;
use nmvs_history::{Closing, Histories, Token};
use nmvs_shard::Shard;
use std::alloc::{AllocError, Allocator};
use std::marker::Model;

/// A shard out of its lock, which takes the clerks' tokens back in. Contracts see its history, which is its trail.
#[derive(Drop)]
pub(crate) struct Unlocked<'a, B: Allocator> {
    pub(crate) shard: Shard<&'a B>,
    pub(crate) closing: Closing<&'a B>,
}

impl<'a, B: Allocator> Model for Unlocked<'a, B> {
    ghost use Rattle.std.specs.Prelude.{◌≡◌};
    ghost use Rattle.nmvs_history.specs.Views.{ClosingView};

    ghost Value = { ClosingView };

    ghost view = { λ u. u.closing };

    ghost invariant = { λ u. u.closing.seen ≡ u.shard };
}

impl<'a, B: Allocator> Unlocked<'a, B> {
    /// Takes a token back in. The trail begins with all that the token had seen.
    fn absorb(&mut self, token: Token)
        requires { token.table ≡ self.old.table }
        ensures begins { IsPrefix token.seen self.old.seen }
        ensures back { self.new ≡ with_token self.old token }
    {
        self.closing.absorb(token);
    }

    /// The shard, once all tokens are back. Each place of its trail belongs to one of them.
    fn close(self) -> Shard<&'a B>
        requires { self.parts ≡ 9 }
        ensures trail { result ≡ self.entry.seen }
        ensures places { AreBelow (length self.entry.seen) self.entry.places }
    {
        let Unlocked { shard, closing } = self;
        closing.close();
        shard
    }
}

/// Takes the shards out of their locks, in order. The list of locks keeps its room.
fn unlock_all<'a, H: Histories, B: Allocator>(
    slots: &mut Vec<Slot<'a, H, B>, &'a B>,
    shards: &mut Vec<Locked<'a, H, B>, &'a B>,
)
    requires empty { shards.old.items ≡ [] }
    requires room { vec_len slots.old ≤ vec_capacity shards.old }
    ensures numbers { map (λ h. h.index) shards.new.items ≡ slots.old.items }
    ensures opened { All (IsOpened H.clerks) shards.new.items }
    ensures empty { slots.new.items ≡ [] }
    ensures room { vec_len shards.new ≤ vec_capacity slots.new }
{
    // One by one, for the proof: the loop's invariant speaks of the list that is left.
    while !slots.is_empty() {
        shards.push_reserved(slots.remove(0).into_locked());
    }
}

/// The shards, in order, ready to take tokens in.
fn take_entry<'a, H: Histories, B: Allocator>(
    locked: &mut Vec<Locked<'a, H, B>, &'a B>,
    closings: &mut Vec<Unlocked<'a, B>, &'a B>,
)
    requires empty { closings.old.items ≡ [] }
    requires room { vec_len locked.old ≤ vec_capacity closings.old }
    ensures closings { closings.new.items ≡ map (unlocked H.tables H.opening) locked.old.items }
    ensures kept { All (IsKept H.shards) locked.old.items }
    ensures opening { All (λ h. IsPrefix (H.opening h.index) h.trail) locked.old.items }
{
    // One by one, for the proof: the loop's invariant speaks of the list that is left.
    while !locked.is_empty() {
        closings.push_reserved(locked.remove(0).into_unlocked());
    }
}

/// Takes a clerk's tokens back in, each by its shard.
fn take_tokens<'a, B: Allocator>(
    closings: &mut Vec<Unlocked<'a, B>, &'a B>,
    tokens: Vec<Token, &'a B>,
)
    requires many { vec_len tokens ≡ vec_len closings.old }
    requires tables { (i : ℕ) (u : ClosingView) (k : TokenView) → slice_get closings.old.items i ≡ Some u
        → slice_get tokens.items i ≡ Some k → k.table ≡ u.table }
    ensures many { vec_len closings.new ≡ vec_len closings.old }
    ensures taken { (i : ℕ) (u : ClosingView) (k : TokenView) → slice_get closings.old.items i ≡ Some u
        → slice_get tokens.entry.items i ≡ Some k
        → (slice_get closings.new.items i ≡ Some (with_token u k)) × IsPrefix k.seen u.seen }
{
    let mut tokens = tokens;
    for shard in 0..closings.len() {
        closings[shard].absorb(tokens.remove(0));
    }
}

/// Takes the clerks' tokens back in, and the receipts that they have in hand, in order.
fn take_clerks<'a, J: Naming, H: Histories, B: Allocator>(
    clerks: &mut Vec<Clerk<'a, J, H, B>, &'a B>,
    closings: &mut Vec<Unlocked<'a, B>, &'a B>,
    receipts: &mut Vec<Receipts<'a, B>, &'a B>,
)
    requires shards { vec_len closings.old ≡ H.shards }
    requires few { vec_len clerks.old ≤ MOST_CLERKS }
    requires closing { let trails = seen_in closings.old.items in
        AreClosing H.tables H.opening trails (9 - vec_len clerks.old) [] closings.old.items }
    requires empty { receipts.old.items ≡ [] }
    requires room { vec_len clerks.old ≤ vec_capacity receipts.old }
    ensures closing { AreClosing H.tables H.opening (seen_in closings.old.items) 9 clerks.old.items closings.new.items }
    ensures receipts { receipts.new.items ≡ lists_of clerks.old.items }
    ensures settled { All (IsSettled (seen_in closings.old.items)) clerks.old.items }
{
    // One by one, for the proof: the loop's invariant speaks of the list that is left.
    while !clerks.is_empty() {
        let (tokens, list) = clerks.remove(0).into_parts();
        take_tokens(closings, tokens);
        receipts.push_reserved(Receipts::new(list));
    }
}

/// The shards, in order, once all tokens are back.
fn close_all<'a, B: Allocator>(
    closings: &mut Vec<Unlocked<'a, B>, &'a B>,
    shards: &mut Vec<Shard<&'a B>, &'a B>,
)
    requires back { All (λ u. u.parts ≡ 9) closings.old.items }
    requires empty { shards.old.items ≡ [] }
    requires room { vec_len closings.old ≤ vec_capacity shards.old }
    ensures trails { shards.new.items ≡ seen_in closings.old.items }
    ensures places { All (λ u. AreBelow (length u.seen) u.places) closings.old.items }
{
    // One by one, for the proof: the loop's invariant speaks of the list that is left.
    while !closings.is_empty() {
        shards.push_reserved(closings.remove(0).close());
    }
}

/// Notes the clerk as the owner at the places of its receipts.
fn note<'a, B: Allocator>(
    clerk: usize,
    receipts: &[Receipt],
    owners: &mut Vec<Owners<'a, B>, &'a B>,
)
    requires rising { Rises receipts.now }
    requires places { (n : ℕ) (r : Receipt) → slice_get receipts.now n ≡ Some r → r.place < length (row owners.old.items r.shard) }
    ensures { Notes clerk receipts.now (length receipts.now) owners.old.items owners.new.items }
{
    // By number, as below: the invariants of these loops speak of the first elements of a list.
    for receipt in 0..receipts.len() {
        let noted = &receipts[receipt];
        owners[noted.shard].note(noted.place, Owner { clerk, receipt });
    }
}

/// Notes the owners at the places of all receipts.
fn note_all<'a, B: Allocator>(
    receipts: &Vec<Receipts<'a, B>, &'a B>,
    owners: &mut Vec<Owners<'a, B>, &'a B>,
)
    requires apart { AreApart receipts.now.items }
    requires rising { (clerk : ℕ) → Rises (row receipts.now.items clerk) }
    requires places { HavePlaces receipts.now.items owners.old.items }
    ensures { AreNoted receipts.now.items (length receipts.now.items) owners.old.items owners.new.items }
{
    for clerk in 0..receipts.len() {
        note(clerk, receipts[clerk].receipts(), owners);
    }
}

/// Owners for the entries of these shards, with none noted yet.
fn owners_for<'a, H: Histories, B: Allocator>(
    alloc: &'a B,
    locked: &Vec<Locked<'a, H, B>, &'a B>,
) -> Result<Vec<Owners<'a, B>, &'a B>, AllocError>
    ensures { IfOk result (λ owners. owners.items ≡ blank_owners (trails_of locked.now.items)) }
{
    let mut owners = Vec::with_capacity(alloc, locked.len())?;
    for shard in 0..locked.len() {
        let count = locked[shard].len();
        owners.push_reserved(Owners::blank(alloc, count)?);
    }
    Ok(owners)
}

/// Room for the settlement of these shards and this number of clerks.
fn room<'a, H: Histories, B: Allocator>(
    alloc: &'a B,
    locked: &Vec<Locked<'a, H, B>, &'a B>,
    clerks: usize,
) -> Result<(Vec<Unlocked<'a, B>, &'a B>, Settled<'a, B>), AllocError>
    requires { clerks ≤ MOST_CLERKS }
    ensures empty { IfOk result (λ r. (r.0.items ≡ []) × (r.1.shards.items ≡ []) × (r.1.receipts.items ≡ [])) }
    ensures owners { IfOk result (λ r. r.1.owners.items ≡ blank_owners (trails_of locked.now.items)) }
    ensures room { IfOk result (λ r. (vec_len locked.now ≤ vec_capacity r.0)
        × (vec_len locked.now ≤ vec_capacity r.1.shards) × (clerks ≤ vec_capacity r.1.receipts)) }
{
    let closings = Vec::with_capacity(alloc, locked.len())?;
    let settled = Settled {
        shards: Vec::with_capacity(alloc, locked.len())?,
        receipts: Vec::with_capacity(alloc, clerks)?,
        owners: owners_for(alloc, locked)?,
    };
    Ok((closings, settled))
}

/// The shards out of their locks, and room for the result.
#[derive(Drop)]
struct Taken<'a, H: Histories, B: Allocator> {
    locked: Vec<Locked<'a, H, B>, &'a B>,
    closings: Vec<Unlocked<'a, B>, &'a B>,
    settled: Settled<'a, B>,
    ghost numbered: { (vec_len locked ≡ H.shards) × IsNumbered (map (λ h. h.index) locked.items) },
    ghost opened: { All (IsOpened H.clerks) locked.items },
    ghost empty: { (closings.items ≡ []) × (settled.shards.items ≡ []) × (settled.receipts.items ≡ []) },
    ghost owners: { settled.owners.items ≡ blank_owners (trails_of locked.items) },
    ghost room: { (vec_len locked ≤ vec_capacity closings) × (vec_len locked ≤ vec_capacity settled.shards)
        × (H.clerks ≤ vec_capacity settled.receipts) },
}

/// Takes the shards out of their locks. If there is no room, they are locked again.
fn unlock<'a, H: Histories, B: Allocator>(
    alloc: &'a B,
    slots: &mut Vec<Slot<'a, H, B>, &'a B>,
    clerks: usize,
) -> Result<Taken<'a, H, B>, AllocError>
    requires numbered { (vec_len slots.old ≡ H.shards) × (H.shards ≤ MOST_SHARDS) × IsNumbered slots.old.items }
    requires clerks { (clerks ≡ H.clerks) × (clerks ≤ MOST_CLERKS) }
    ensures { OnErr result (slots.new.items ≡ slots.old.items) }
{
    let mut locked = Vec::with_capacity(alloc, slots.len())?;
    unlock_all(slots, &mut locked);
    match room(alloc, &locked, clerks) {
        Ok((closings, settled)) => Ok(Taken {
            locked,
            closings,
            settled,
        }),
        Err(fault) => {
            lock_all(&mut locked, slots);
            Err(fault)
        }
    }
}

impl<'a, H: Histories, B: Allocator> Taken<'a, H, B> {
    /// Takes the tokens back in, notes the owners, and hands all out. It takes no memory.
    fn settle<J: Naming>(self, clerks: Vec<Clerk<'a, J, H, B>, &'a B>) -> Settled<'a, B>
        requires clerks { (vec_len clerks ≡ H.clerks) × (vec_len clerks ≤ MOST_CLERKS) }
        ensures trails { AreTrails H.shards result.shards.items }
        ensures receipts { result.receipts.items ≡ lists_of clerks.entry.items }
        ensures divided { AreDivided H.shards H.opening result.shards.items clerks.entry.items }
        ensures owned { IsOwned result.shards.items result.receipts.items result.owners.items }
        ensures rising { All Rises result.receipts.items }
        ensures settled { All (IsSettled result.shards.items) clerks.entry.items }
    {
        let Taken {
            mut locked,
            mut closings,
            settled,
        } = self;
        let Settled {
            mut shards,
            mut receipts,
            mut owners,
        } = settled;
        let mut clerks = clerks;
        take_entry(&mut locked, &mut closings);
        take_clerks(&mut clerks, &mut closings, &mut receipts);
        close_all(&mut closings, &mut shards);
        note_all(&receipts, &mut owners);
        Settled {
            shards,
            receipts,
            owners,
        }
    }
}

/// Settles a repository with its clerks, once nobody asks any more. It hands out the trails of all shards, the receipts that
/// all clerks have in hand, and the owner of each entry. The clerks are numbered from 0, as listed.
///
/// Each trail is lawful, and so is every merging of them. It begins with the trail of the opening, and with all that any clerk
/// has seen of it. Each place is a place of the opening or of exactly one clerk. So every question that was put stands in the
/// trails once, and the only other entries are those of the opening. Each receipt in hand owns one place, with its shard and
/// its entry. The places of a clerk's receipts rise in each shard.
///
/// # Errors
///
/// `AllocError` if a growth was refused. The repository and the clerks come back as they were.
pub fn settle<'a, J: Naming, H: Histories, B: Allocator>(
    alloc: &'a B,
    repository: Repository<'a, H, B>,
    clerks: Vec<Clerk<'a, J, H, B>, &'a B>,
) -> Result<Settled<'a, B>, (AllocError, Unsettled<'a, J, H, B>)>
    requires { vec_len clerks ≡ repository.clerks }
    ensures trails { IfOk result (λ s. AreTrails repository.entry.shards s.shards.items) }
    ensures receipts { IfOk result (λ s. s.receipts.items ≡ lists_of clerks.entry.items) }
    ensures divided { IfOk result (λ s. AreDivided repository.entry.shards H.opening s.shards.items clerks.entry.items) }
    ensures owned { IfOk result (λ s. IsOwned s.shards.items s.receipts.items s.owners.items) }
    ensures rising { IfOk result (λ s. All Rises s.receipts.items) }
    ensures settled { IfOk result (λ s. All (IsSettled s.shards.items) clerks.entry.items) }
    ensures given_back { IfErr result (λ e. (e.1.repository ≡ repository.entry) × (e.1.clerks.items ≡ clerks.entry.items)) }
{
    let Repository {
        mut slots,
        clerks: count,
    } = repository;
    match unlock(alloc, &mut slots, count) {
        Ok(taken) => Ok(taken.settle(clerks)),
        Err(fault) => {
            let repository = Repository {
                slots,
                clerks: count,
            };
            Err((fault, Unsettled { repository, clerks }))
        }
    }
}
