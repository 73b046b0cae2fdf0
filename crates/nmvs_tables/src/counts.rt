//! Numbers of packs of a batch in each own status.
ghost use Rattle.std.specs.Prelude.{◌≡◌, ◌+◌, ◌<◌, ◌≤◌, ◌^◌};
ghost use Rattle.std.specs.Option.{ForSome};
ghost use Rattle.nmvs_rules.specs.declared.own_status.OwnStatus.{OwnStatus};
ghost use Rattle.nmvs_rules.specs.Trail.{same_own};
ghost use Rattle.nmvs_tables.specs.Codes.{one_if};
ghost use Rattle.nmvs_tables.specs.Batches.{count_in, Moves};

use nmvs_rules::{Counts, OwnStatus};

/// The counts with one pack more of an own status.
fn with_one_more(counts: &Counts, own: OwnStatus) -> Counts
    requires { count_in counts.now own + 1 < 2 ^ 64 }
    ensures { (s : OwnStatus) →
        count_in result s ≡ count_in counts.now s + one_if (same_own s own) }
{
    let mut counts = *counts;
    match own {
        OwnStatus::Active => counts.active += 1,
        OwnStatus::Held => counts.held += 1,
        OwnStatus::Supplied => counts.supplied += 1,
        OwnStatus::Exported => counts.exported += 1,
        OwnStatus::Sampled => counts.sampled += 1,
        OwnStatus::Destroyed => counts.destroyed += 1,
        OwnStatus::Stolen => counts.stolen += 1,
    }
    counts
}

/// The counts with one pack less of an own status.
fn with_one_less(counts: &Counts, own: OwnStatus) -> Counts
    requires { 1 ≤ count_in counts.now own }
    ensures { (s : OwnStatus) →
        count_in result s + one_if (same_own s own) ≡ count_in counts.now s }
{
    let mut counts = *counts;
    match own {
        OwnStatus::Active => counts.active -= 1,
        OwnStatus::Held => counts.held -= 1,
        OwnStatus::Supplied => counts.supplied -= 1,
        OwnStatus::Exported => counts.exported -= 1,
        OwnStatus::Sampled => counts.sampled -= 1,
        OwnStatus::Destroyed => counts.destroyed -= 1,
        OwnStatus::Stolen => counts.stolen -= 1,
    }
    counts
}

/// The counts after a pack went from one own status to another, from none or to none.
pub(crate) fn counts_after(
    counts: &Counts,
    from: Option<OwnStatus>,
    to: Option<OwnStatus>,
) -> Counts
    requires from { ForSome from (λ own. 1 ≤ count_in counts.now own) }
    requires to { ForSome to (λ own. count_in counts.now own + 1 < 2 ^ 64) }
    ensures { Moves counts.now from to result }
{
    let left = match from {
        Some(own) => with_one_less(counts, own),
        None => *counts,
    };
    match to {
        Some(own) => with_one_more(&left, own),
        None => left,
    }
}
