//! The memory of connections by the name under which it is counted.
ghost use Rattle.std.specs.Prelude.{◌≡◌, ◌+◌, ◌-◌, ◌^◌, IfOk, min, false};
ghost use Rattle.nmvs_identifier.specs.Name.{Name as TheName};
ghost use Rattle.nmvs_identifier.specs.Texts.{same_text};
ghost use Rattle.nmvs_connections.specs.Memory.{IsHeaviest, IsLargestOf, count_in};

use crate::connection::Connection;
use indexmap::IndexMap;
use nmvs_identifier::Name;
use nmvs_messages::LineList;
use slab::Slab;
use std::alloc::{AllocError, Global};
use std::hash::{BuildHasherDefault, FoldHasher};

/// The memory that is counted under each name, in bytes.
type Counts = IndexMap<Name, usize, BuildHasherDefault<FoldHasher>, Global>;

/// The name under which the connections keep most memory, if they keep some.
///
/// # Errors
///
/// Memory for the counts was refused.
pub(crate) fn heaviest<L: LineList>(
    connections: &Slab<Connection<L>>,
    alloc: Global,
) -> Result<Option<Name>, AllocError>
    ensures { IfOk result (λ name. IsHeaviest connections.now name) }
{
    let mut counts: Counts = IndexMap::new(alloc);
    let mut most = 0;
    let mut heaviest = None;
    for (_key, connection) in connections.iter() {
        let name = connection.account();
        let count = count_more(&mut counts, &name, connection.memory)?;
        if count > most {
            most = count;
            heaviest = Some(name);
        }
    }
    Ok(heaviest)
}

/// Counts more memory under a name. Returns the bytes that are then counted there.
fn count_more(counts: &mut Counts, name: &Name, memory: usize) -> Result<usize, AllocError>
    ensures count { IfOk result (λ count. count ≡ min (count_in counts.old name.now + memory) (2 ^ 64 - 1)) }
    ensures own { IfOk result (λ count. count_in counts.new name.now ≡ count) }
    ensures others { IfOk result (λ count. (other : TheName) → same_text name.now other ≡ false → count_in counts.new other ≡ count_in counts.old other) }
{
    let count = count_of(counts, name).saturating_add(memory);
    match counts.insert(*name, count) {
        Ok(_) => Ok(count),
        Err(_) => Err(AllocError),
    }
}

/// The bytes that are counted under a name.
fn count_of(counts: &Counts, name: &Name) -> usize
    ensures { result ≡ count_in counts.now name.now }
{
    match counts.get(name) {
        Some(count) => *count,
        None => 0,
    }
}

/// The key of the connection under this name whose buffers take most memory, if any take some. If `unfinished`, it is one of
/// those whose line or request has not come whole.
pub(crate) fn largest_of<L: LineList>(
    connections: &Slab<Connection<L>>,
    name: &Name,
    unfinished: bool,
) -> Option<usize>
    ensures { IsLargestOf connections.now name.now unfinished result }
{
    let mut most = 0;
    let mut largest = None;
    for (key, connection) in connections.iter() {
        if connection.memory > most && connection.is_counted(name, unfinished) {
            most = connection.memory;
            largest = Some(key);
        }
    }
    largest
}
