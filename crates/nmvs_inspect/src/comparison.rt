//! Two trails that are compared, product code by product code.
ghost use Rattle.std.specs.Prelude.{◌≡◌, ◌↔◌, ◌<◌, cond, None, Some, true, length, slice_get, slice_index_or, IfOk, OnOk, IfSome};
ghost use Rattle.nmvs_identifier.specs.ProductCode.{ProductCode};
ghost use Rattle.nmvs_inspect.specs.Comparison as spec;

use indexmap::IndexMap;
use nmvs_identifier::ProductCode;
use nmvs_line::entry_line;
use nmvs_reader::entry_line_laws;
use nmvs_rules::Entry;
use nmvs_shard::{HashKey, Shard};
use std::alloc::{AllocError, Allocator, Global};

/// The first entry of an old trail that a new one does not have in its place.
#[derive(Clone, Copy)]
pub struct Departure {
    /// Its number in the old trail, counted from 1.
    pub number: usize,
    pub entry: Entry,
    /// The entry that the new trail has there, or None if no further entry is about the product code.
    pub found: Option<Entry>,
}

/// A walk along the entries about each product code of a trail.
#[derive(Drop)]
pub(crate) struct Walk {
    /// The place of the first entry about each product code that was not passed.
    heads: IndexMap<ProductCode, usize, HashKey>,
    /// For each entry the place of the next one about its product code, or the trail's length if there is none.
    nexts: Vec<usize>,
}

/// The first departure of a new trail from an old one, if any. The new trail goes on from the old one if its entries
/// about each product code begin with the old one's, in order (own).
///
/// The entries about different product codes may stand in any order, as shards are exported one after another. It takes
/// time and memory in proportion to the trails, and hashes with the key of the new one.
///
/// # Errors
///
/// There is no memory for the walk.
pub fn first_departure<A: Allocator>(
    alloc: Global,
    old: &Shard<A>,
    new: &Shard<A>,
) -> Result<Option<Departure>, AllocError>
    ensures goes_on { IfOk result (λ r. (r ≡ None) ↔ spec.GoesOn old.now new.now) }
    ensures first { IfOk result (λ r. IfSome r (spec.Departs old.now new.now)) }
{
    let mut walk = walk_along(alloc, new)?;
    for place in 0..old.len() {
        let entry = old.entry_at(place).unwrap();
        let code = entry.put.question.code();
        let at = head(&walk, &code);
        let found = new.entry_at(at);
        if !is_found(&entry, &found) {
            return Ok(Some(Departure {
                number: place + 1,
                entry,
                found,
            }));
        }
        pass(&mut walk, code, at)?;
    }
    Ok(None)
}

/// A walk before the first entry.
fn walk_along<A: Allocator>(alloc: Global, shard: &Shard<A>) -> Result<Walk, AllocError>
    ensures { IfOk result (λ walk. spec.StandsBefore walk shard.now) }
{
    let many = shard.len();
    let mut heads = IndexMap::with_hasher(alloc, shard.tables().key());
    let mut nexts = vec![in alloc; many; many]?;
    let mut left = many;
    while left > 0 {
        left -= 1;
        let code = shard.entry_at(left).unwrap().put.question.code();
        nexts[left] = put_head(&mut heads, code, left)?.unwrap_or(many);
    }
    Ok(Walk { heads, nexts })
}

/// Gives a product code its head, and returns its earlier head, if any.
fn put_head(
    heads: &mut IndexMap<ProductCode, usize, HashKey>,
    code: ProductCode,
    head: usize,
) -> Result<Option<usize>, AllocError>
    ensures before { IfOk result (λ before. before ≡ spec.head heads.old code) }
    ensures heads { OnOk result ((q : ProductCode) → spec.head heads.new q ≡ cond (spec.same_code code q) (Some head) (spec.head heads.old q)) }
{
    match heads.insert(code, head) {
        Ok(before) => Ok(before),
        Err(_) => Err(AllocError),
    }
}

/// The place where the walk stands with a product code.
fn head(walk: &Walk, code: &ProductCode) -> usize
    ensures { result ≡ spec.head_of walk.now code.now }
{
    walk.heads.get(code).copied().unwrap_or(walk.nexts.len())
}

/// Passes the entry about a product code at a place.
fn pass(walk: &mut Walk, code: ProductCode, at: usize) -> Result<(), AllocError>
    requires { at < length walk.old.nexts.items }
    ensures heads { OnOk result ((q : ProductCode) → spec.head_of walk.new q
        ≡ cond (spec.same_code code q) (slice_index_or walk.old.nexts.items at 0) (spec.head_of walk.old q)) }
    ensures nexts { OnOk result (walk.new.nexts.items ≡ walk.old.nexts.items) }
{
    put_head(&mut walk.heads, code, walk.nexts[at])?;
    Ok(())
}

/// Whether this entry was found.
fn is_found(entry: &Entry, found: &Option<Entry>) -> bool
    ensures { (result ≡ true) ↔ (found.now ≡ Some entry.now) }
{
    match found {
        Some(found) => is_same(entry, found),
        None => false,
    }
}

/// Whether two entries are the same: different entries have different lines.
fn is_same(entry: &Entry, other: &Entry) -> bool
    ensures { (result ≡ true) ↔ (other.now ≡ entry.now) }
{
    entry.tell_ranges();
    other.tell_ranges();
    entry_line_laws();
    entry_line(entry).as_str() == entry_line(other).as_str()
}
