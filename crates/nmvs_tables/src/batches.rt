//! The table of batches.
ghost use Rattle.std.specs.Prelude.{◌≡◌, ◌+◌, ◌<◌, ◌≤◌, ◌^◌, true, false, IsSomeAnd};
ghost use Rattle.indexmap.specs.IndexMap.{get, keys, spare};
ghost use Rattle.std.specs.Option.{ForSome};
ghost use Rattle.nmvs_rules.specs.declared.own_status.OwnStatus.{OwnStatus};
ghost use Rattle.nmvs_tables.specs.declared.batches.BatchKey.{BatchKey};
ghost use Rattle.nmvs_rules.specs.Questions.{code_of, locked_batch};
ghost use Rattle.nmvs_tables.specs.Batches.{same_batch, batch_named_in, batch_in, batch_meant, batch_changed, batches_after, changes_batch, count_in, own_before, own_after, NotesBatch, lock_after, first_of};

use crate::HashKey;
use crate::counts::counts_after;
use crate::writes::{find, find_near, write};
use indexmap::IndexMap;
use nmvs_identifier::{Batch, ProductCode};
use nmvs_rules::{
    BatchLock, BatchQuestion, BatchRecord, Counts, Entry, Known, OwnStatus, Question,
};
use std::alloc::Allocator;

/// A batch of a product.
#[derive(Clone, Copy, PartialEq, Eq, Hash)]
pub(crate) struct BatchKey {
    pub code: ProductCode,
    pub batch: Batch,
}

pub(crate) type Batches<A> = IndexMap<BatchKey, BatchRecord, HashKey, A>;

/// The record of a batch.
pub(crate) fn record_of<A: Allocator>(batches: &Batches<A>, key: &BatchKey) -> Option<BatchRecord>
    ensures { result ≡ get same_batch batches.now key.now }
{
    batches.get(key).copied()
}

/// The record of a batch, and the index at which the batch likely stands.
#[derive(Clone, Copy)]
pub(crate) struct Sought {
    pub index: usize,
    pub value: Option<BatchRecord>,
}

/// Searches for a batch.
fn seek_key<A: Allocator>(batches: &Batches<A>, key: &BatchKey) -> Sought
    ensures { result.value ≡ get same_batch batches.now key.now }
{
    let (index, value) = find(batches, key);
    Sought {
        index: index.unwrap_or(0),
        value,
    }
}

/// Searches for the batch that a recall or withdrawal names, or else for that of the known pack.
pub(crate) fn seek<A: Allocator>(
    batches: &Batches<A>,
    question: &Question,
    known: &Option<Known>,
) -> Sought
    ensures { result.value ≡
        batch_named_in batches.now (code_of question.now) (locked_batch question.now) known.now }
{
    let batch = match (question.locked_batch(), known) {
        (Some(batch), _) => batch,
        (None, Some(known)) => known.batch,
        (None, None) => return Sought {
            index: 0,
            value: None,
        },
    };
    let key = BatchKey {
        code: question.code(),
        batch,
    };
    seek_key(batches, &key)
}

/// The batch that an accepted question changes, about a pack that is known or not.
fn batch_meant(question: &Question, known: &Option<Known>) -> Option<BatchKey>
    ensures { result ≡ batch_meant question.now known.now }
{
    let batch = match (known, question) {
        (Some(known), _) => known.batch,
        (None, Question::Upload { batch, .. }) => *batch,
        (None, Question::OfBatch(_, _, batch)) => *batch,
        (None, Question::OfPack(_, _)) => return None,
    };
    Some(BatchKey {
        code: question.code(),
        batch,
    })
}

/// The record of a batch that has no packs yet.
const NO_PACKS: BatchRecord = BatchRecord {
    lock: BatchLock::Free,
    counts: Counts {
        active: 0,
        held: 0,
        supplied: 0,
        exported: 0,
        sampled: 0,
        destroyed: 0,
        stolen: 0,
    },
};

/// The lock of a batch after an accepted question that changes it (Article 40).
fn lock_after(question: &Question, lock: BatchLock) -> BatchLock
    ensures { result ≡ lock_after question.now lock }
{
    match question {
        Question::OfBatch(BatchQuestion::Recall, _, _) => BatchLock::Recalled,
        Question::OfBatch(BatchQuestion::Withdraw, _, _) => BatchLock::Withdrawn,
        _ => lock,
    }
}

/// The own status of a pack, if it is known.
fn own_before(known: &Option<Known>) -> Option<OwnStatus>
    ensures { result ≡ own_before known.now }
{
    match known {
        Some(known) => Some(known.own),
        None => None,
    }
}

/// The own status that an accepted question gives the pack that it names.
fn own_after(question: &Question) -> Option<OwnStatus>
    ensures { result ≡ own_after question.now }
{
    match question.pack() {
        Some(_) => Some(question.own_given()),
        None => None,
    }
}

/// The record of a batch after an accepted question that changes it, about a pack that is known or not.
fn record_after(old: &BatchRecord, question: &Question, known: &Option<Known>) -> BatchRecord
    requires from { ForSome (own_before known.now) (λ own. 1 ≤ count_in old.now.counts own) }
    requires to { ForSome (own_after question.now) (λ own.
        count_in old.now.counts own + 1 < 2 ^ 64) }
    ensures { NotesBatch question.now known.now old.now result }
{
    BatchRecord {
        lock: lock_after(question, old.lock),
        counts: counts_after(&old.counts, own_before(known), own_after(question)),
    }
}

/// Notes an entry about a pack that was known before it or not. Room was made for its batch, which likely stands at an index.
/// Returns the batch of which the entry is the first accepted upload, if any.
pub(crate) fn note<A: Allocator>(
    batches: &mut Batches<A>,
    entry: &Entry,
    known: &Option<Known>,
    likely: usize,
) -> Option<BatchKey>
    requires room { 0 < spare batches.old }
    requires from { (b : BatchKey) → changes_batch b entry.now known.now ≡ true →
        ForSome (own_before known.now) (λ own. 1 ≤ count_in (batch_in batches.old b).counts own) }
    requires to { (b : BatchKey) → (own : OwnStatus) →
        count_in (batch_in batches.old b).counts own + 1 < 2 ^ 64 }
    ensures changed { (b : BatchKey) → changes_batch b entry.now known.now ≡ true →
        IsSomeAnd (get same_batch batches.new b) (λ r.
        NotesBatch entry.now.put.question known.now (batch_in batches.old b) r) }
    ensures others { (b : BatchKey) → changes_batch b entry.now known.now ≡ false →
        get same_batch batches.new b ≡ get same_batch batches.old b }
    ensures order { keys batches.new ≡
        batches_after (keys batches.old) (batch_changed entry.now known.now) }
    ensures first { result ≡ first_of (keys batches.old) (batch_changed entry.now known.now) }
{
    if !entry.is_accepted() {
        return None;
    }
    let Some(key) = batch_meant(&entry.put.question, known) else {
        return None;
    };
    let (index, old) = find_near(batches, &key, likely);
    let old = old.unwrap_or(NO_PACKS);
    write(
        batches,
        index,
        key,
        record_after(&old, &entry.put.question, known),
    );
    index.is_none().then_some(key)
}
