//! A flagged alert as it stands.
ghost use Rattle.std.specs.Prelude.{◌≡◌, List};
ghost use Rattle.nmvs_rules.specs.declared.entry.Entry.{Entry as AnEntry};
ghost use Rattle.nmvs_tables.specs.Tables.{AreTablesOf};
ghost use Rattle.nmvs_alerts.specs.Alerts as alerts;

use crate::flagged::Flagged;
use nmvs_cases::{Case, CaseLine, Hint, hint_of};
use nmvs_identifier::Pack;
use nmvs_reports::AlertName;
use nmvs_rules::{Cause, Entry, Reply};
use nmvs_shard::{Shard, Tables};
use std::alloc::Allocator;

/// A flagged alert as it stands: what was asked, the hint at what raised it, and its case.
#[derive(Clone, Copy)]
pub struct FlaggedAlert {
    pub name: AlertName,
    pub cause: Cause,
    pub entry: Entry,
    pub hint: Option<Hint>,
    pub case: Case,
}

impl FlaggedAlert {
    /// The case of the alert after a line.
    pub(crate) fn after(&self, line: &CaseLine) -> Case
        ensures { result ≡ alerts.acted line.now self.now }
    {
        line.on(&self.case, &self.name.code, self.name.number, self.hint)
    }
}

/// The flagged alert as it stands on its trail.
pub(crate) fn alert_of<A: Allocator>(shard: &Shard<A>, flagged: &Flagged) -> Option<FlaggedAlert>
    ensures { result ≡ alerts.alert_of shard.now flagged.now }
{
    let entry = shard.entry_at(flagged.place)?;
    let Reply::Alert { cause, number, .. } = entry.reply else {
        return None;
    };
    let question = &entry.put.question;
    let hint = hint_over(shard.tables(), &question.pack(), cause, flagged.repeated);
    Some(FlaggedAlert {
        name: AlertName {
            code: question.code(),
            number,
        },
        cause,
        entry,
        hint,
        case: flagged.case,
    })
}

fn hint_over<A: Allocator>(
    tables: &Tables<A>,
    pack: &Option<Pack>,
    cause: Cause,
    repeated: Option<Hint>,
) -> Option<Hint>
    ensures { (t : List AnEntry) → AreTablesOf tables.now t → result ≡ alerts.hint_over t pack.now cause repeated }
{
    match pack {
        None => repeated,
        Some(pack) => hint_of(tables, pack, cause, repeated),
    }
}
