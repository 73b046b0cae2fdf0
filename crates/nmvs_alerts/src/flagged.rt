//! The flagged alerts of a trail, each by its place.
ghost use Rattle.std.specs.Prelude.{◌≡◌, ◌++◌, ◌∷◌, ◌<◌, ◌+◌, [], List, length, vec_len, vec_capacity};
ghost use Rattle.nmvs_rules.specs.declared.entry.Entry.{Entry as AnEntry};
ghost use Rattle.nmvs_rules.specs.Facts.{pack_fact};
ghost use Rattle.nmvs_rules.specs.Questions.{pack_of};
ghost use Rattle.nmvs_alerts.specs.Alerts as alerts;

use nmvs_cases::{Case, Hint, repeated_hint};
use nmvs_rules::{Entry, Known, Reply};
use nmvs_shard::Shard;
use std::alloc::Allocator;

/// A flagged alert of a trail, with its case.
#[derive(Clone, Copy)]
pub(crate) struct Flagged {
    /// The place of its entry, counted from 0.
    pub place: usize,
    /// The hint by the last operation on its pack before it.
    pub repeated: Option<Hint>,
    pub case: Case,
}

/// Notes the last entry of a trail, at this place, if it is a flagged alert. Its case is open. There is room for it.
pub(crate) fn note_last<A: Allocator>(shard: &Shard<A>, place: usize, flagged: &mut Vec<Flagged>)
    requires last { place + 1 ≡ length shard.now }
    requires room { vec_len flagged.old < vec_capacity flagged.old }
    ensures { (before : List AnEntry) (e : AnEntry) → shard.now ≡ before ++ e ∷ []
        → flagged.new.items ≡ flagged.old.items ++ alerts.raised_by (length before) e (pack_fact before (pack_of e.put.question)) }
{
    let entry = shard.entry_at(place).unwrap();
    // An alert changes nothing of its pack, so that these are the values before it.
    let known = shard.tables().facts(&entry.put.question).pack;
    if let Some(alert) = raised_by(place, &entry, &known) {
        flagged.push_reserved(alert);
    }
}

/// The flagged alert that an entry is, if it is one, by its place and what was known of its pack just before.
fn raised_by(place: usize, entry: &Entry, known: &Option<Known>) -> Option<Flagged>
    ensures { alerts.listed result ≡ alerts.raised_by place entry.now known.now }
{
    match entry.reply {
        Reply::Alert {
            cause,
            flagged: true,
            ..
        } => Some(Flagged {
            place,
            repeated: repeated_hint(cause, &entry.put, known),
            case: Case::Open,
        }),
        _ => None,
    }
}
