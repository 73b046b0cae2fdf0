//! Values of keys: found, and written at the same index.
ghost use Rattle.std.specs.Prelude.{◌≡◌, ◌<◌, Some, cond};
ghost use Rattle.indexmap.specs.IndexMap.{get, index_of, insert_entry, spare};

use indexmap::IndexMap;
use std::alloc::Allocator;
use std::hash::{BuildHasher, Hash};

/// The index and the value of a key.
pub(crate) fn find<K: Eq + Hash, V: Copy, S: BuildHasher, A: Allocator>(
    table: &IndexMap<K, V, S, A>,
    key: &K,
) -> (Option<usize>, Option<V>)
    ensures index { result.0 ≡ index_of K.eq table.now key.now }
    ensures value { result.1 ≡ get K.eq table.now key.now }
{
    match table.get_full(key) {
        Some((index, _, value)) => (Some(index), Some(*value)),
        None => (None, None),
    }
}

/// The index and the value of a key, as `find` gives them. The key is searched for only if it does not stand at the likely
/// index.
pub(crate) fn find_near<K: Eq + Hash, V: Copy, S: BuildHasher, A: Allocator>(
    table: &IndexMap<K, V, S, A>,
    key: &K,
    likely: usize,
) -> (Option<usize>, Option<V>)
    ensures index { result.0 ≡ index_of K.eq table.now key.now }
    ensures value { result.1 ≡ get K.eq table.now key.now }
{
    if likely < table.len() {
        let (found, value) = table.get_index(likely).unwrap();
        if *found == *key {
            return (Some(likely), Some(*value));
        }
    }
    find(table, key)
}

/// Gives a key its value. Room was made for it.
pub(crate) fn insert<K: Eq + Hash + Copy, V: Copy, S: BuildHasher, A: Allocator>(
    table: &mut IndexMap<K, V, S, A>,
    key: K,
    value: V,
)
    requires { 0 < spare table.old }
    ensures updates { (q : K) → get K.eq table.new q ≡
        cond (K.eq key q) (Some value) (get K.eq table.old q) }
    ensures entries { table.new.entries ≡ insert_entry K.eq table.old.entries key value }
{
    table.insert(key, value).unwrap();
}

/// Gives a key its value, at the index that was found for it. A new key, for which room was made, goes last.
pub(crate) fn write<K: Eq + Hash + Copy, V: Copy, S: BuildHasher, A: Allocator>(
    table: &mut IndexMap<K, V, S, A>,
    index: Option<usize>,
    key: K,
    value: V,
)
    requires room { 0 < spare table.old }
    requires found { index ≡ index_of K.eq table.old key }
    ensures updates { (q : K) → get K.eq table.new q ≡
        cond (K.eq key q) (Some value) (get K.eq table.old q) }
    ensures entries { table.new.entries ≡ insert_entry K.eq table.old.entries key value }
{
    match index {
        Some(index) => table[index] = value,
        None => insert(table, key, value),
    }
}
