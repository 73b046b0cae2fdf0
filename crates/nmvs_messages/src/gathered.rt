//! A list of entries in memory.
ghost use Rattle.std.specs.Prelude.{◌≡◌, ◌<◌, ◌++◌, length};
ghost use Rattle.nmvs_line.specs.Export.{export_text};

use crate::LineList;
use crate::piece::{PIECE, Piece, push_lines};
use nmvs_rules::Entry;
use std::alloc::{Allocator, Global};
use std::marker::Model;
use std::mem::size_of;

/// Entries that were gathered before their answer, and are not fetched yet. Contracts see them, oldest first.
#[derive(Drop)]
pub struct GatheredEntries<A: Allocator = Global> {
    entries: Vec<Entry, A>,
    /// The number of entries that were fetched.
    fetched: usize,
}

impl<A: Allocator> Model for GatheredEntries<A> {
    ghost use Rattle.std.specs.Prelude.{◌≤◌, List, drop, length};
    ghost use Rattle.nmvs_rules.specs.declared.entry.Entry.{Entry};

    ghost Value = { List Entry };

    ghost view = { λ g. drop g.fetched g.entries.items };

    ghost invariant = { λ g. g.fetched ≤ length g.entries.items };
}

impl<A: Allocator> GatheredEntries<A> {
    /// All of these entries.
    pub fn new(entries: Vec<Entry, A>) -> GatheredEntries<A>
        ensures { result ≡ entries.items }
    {
        GatheredEntries {
            entries,
            fetched: 0,
        }
    }

    /// Fetches the next lines, as a desk does.
    pub fn fetch(&mut self, piece: &mut Piece)
        ensures text { piece.new.text.items ++ export_text self.new ≡ export_text self.old }
        ensures some { 0 < length self.old → 0 < length piece.new.text.items }
    {
        let left = &self.entries.as_slice()[self.fetched..];
        let count = PIECE.min(left.len());
        piece.text.clear();
        push_lines(&mut piece.text, &left[..count]);
        self.fetched += count;
    }
}

impl<A: Allocator> LineList for GatheredEntries<A> {
    ghost use Rattle.nmvs_line.specs.Export.{export_text};

    ghost left = { λ g. export_text g };

    fn is_empty(&self) -> bool {
        self.fetched == self.entries.len()
    }

    fn memory(&self) -> usize {
        self.entries.capacity().saturating_mul(size_of::<Entry>())
    }
}
