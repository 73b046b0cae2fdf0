//! The entries that an answer shows.
ghost use Rattle.std.specs.Prelude.{◌≡◌, ◌<◌, None, Some};
ghost use Rattle.std.specs.Option.{ForSome};
ghost use Rattle.nmvs_tables.specs.Cursors.{remaining, IsCursorOf};
ghost use Rattle.nmvs_desk.specs.Answers.{cursor_of};

use nmvs_history::{Histories, Sight};
use nmvs_messages::LineList;
use nmvs_shard::{Cursor, Outcome};
use std::marker::{Model, PhantomData};

/// The entries that the answer to an audit shows and that are not fetched yet. The list holds no entry. Its cursor says where
/// the next one stands in the shard's trail, and its sight that the trail begins with the one that was seen.
///
/// Contracts see the entries, oldest first.
#[derive(Drop)]
pub struct Shown<H: Histories> {
    pub(crate) shard: usize,
    pub(crate) cursor: Cursor,
    pub(crate) sight: Sight,
    of: PhantomData<H>,
}

impl<H: Histories> Model for Shown<H> {
    ghost use Rattle.std.specs.Prelude.{◌≡◌, ◌<◌, List};
    ghost use Rattle.nmvs_rules.specs.declared.entry.Entry.{Entry};
    ghost use Rattle.nmvs_tables.specs.Cursors.{remaining, IsCursorOf};

    ghost Value = { List Entry };

    ghost view = { λ s. remaining s.sight.seen s.cursor };

    ghost invariant = { λ s. (s.shard < H.shards) × (s.sight.table ≡ H.tables s.shard) × IsCursorOf s.sight.seen s.cursor };
}

impl<H: Histories> Shown<H> {
    /// The entries of a cursor over the trail of the shard of this number, which the sight has seen.
    pub(crate) fn new(shard: usize, cursor: Cursor, sight: Sight) -> Shown<H>
        requires shard { shard < H.shards }
        requires table { sight.table ≡ H.tables shard }
        requires cursor { IsCursorOf sight.seen cursor }
        ensures { result ≡ remaining sight.seen cursor }
    {
        Shown {
            shard,
            cursor,
            sight,
            of: PhantomData,
        }
    }
}

impl<H: Histories> LineList for Shown<H> {
    ghost use Rattle.nmvs_line.specs.Export.{export_text};

    ghost left = { λ s. export_text s };

    fn is_empty(&self) -> bool {
        self.cursor.left == 0
    }

    fn memory(&self) -> usize {
        0
    }
}

/// The entries that an outcome shows in the shard of this number, by a sight that has seen the trail after it. None if it shows
/// none.
pub(crate) fn shown_by<H: Histories>(
    shard: usize,
    outcome: &Outcome,
    sight: Sight,
) -> Option<Shown<H>>
    requires shard { shard < H.shards }
    requires table { sight.table ≡ H.tables shard }
    requires cursor { ForSome (cursor_of outcome.now) (IsCursorOf sight.seen) }
    ensures none { cursor_of outcome.now ≡ None → result ≡ None }
    ensures shown { ForSome (cursor_of outcome.now) (λ cursor. result ≡ Some (remaining sight.seen cursor)) }
{
    match outcome {
        Outcome::New(answered) => {
            let cursor = answered.shown?;
            Some(Shown::new(shard, cursor, sight))
        }
        Outcome::Again(_) | Outcome::NotPut(..) => None,
    }
}
