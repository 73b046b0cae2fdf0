//! Entries about a pack that are still to be fetched.
ghost use Rattle.nmvs_tables.specs.Cursors.{CursorsCount, CursorsStay};

use nmvs_identifier::Pack;

/// The entries about a pack that are still to be fetched from a trail. It holds none of them, and they stay the same while the
/// trail grows.
#[derive(Clone, Copy)]
pub struct Cursor {
    pub pack: Pack,
    /// The place of the next one, counted from 0.
    pub next: usize,
    /// The number of them.
    pub left: usize,
}

/// Proves that a cursor over a trail has as many entries left as it says. On each longer trail it has the same ones
/// left. It does nothing else.
pub fn cursors_stay()
    ensures count { CursorsCount }
    ensures stay { CursorsStay }
{}
