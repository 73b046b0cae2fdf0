//! The premises with the most entries that a filter takes.
ghost use Rattle.std.specs.Prelude.{◌≡◌, ◌++◌, List, OnOk, take};
ghost use Rattle.nmvs_inspect.specs.Groups.{Group as AGroup};
ghost use Rattle.nmvs_inspect.specs.Premises as premises;

use crate::groups::{Group, append_groups, groups_of};
use crate::{By, Filter, Form};
use nmvs_shard::Shard;
use std::alloc::{AllocError, Allocator, Global};

/// Puts the rows of the premises with the most entries that a filter takes at the end of a block, the most first. The same
/// name under another authorisation is other premises.
pub(crate) fn append_premises<A: Allocator>(
    alloc: Global,
    block: &mut Vec<u8>,
    shard: &Shard<A>,
    filter: &Filter,
) -> Result<(), AllocError>
    ensures { OnOk result ((most : List AGroup) × premises.ArePremises filter.now shard.now most
        × (block.new.items ≡ block.old.items ++ premises.premises_rows most)) }
{
    let by = [By::Authorisation, By::Premises];
    let mut groups = groups_of(alloc, shard, filter, &by)?;
    sort_most_first(&mut groups)?;
    append_groups(alloc, block, Form::Html, &by, first_rows(&groups))
}

/// The groups that have a row: 20 at most (own).
fn first_rows(groups: &[Group]) -> &[Group]
    ensures { result.now ≡ take 20 groups.now }
{
    &groups[..groups.len().min(20)]
}

/// Puts the groups with the most entries first.
fn sort_most_first(groups: &mut Vec<Group>) -> Result<(), AllocError>
    ensures { OnOk result (premises.AreMostFirst groups.old.items groups.new.items) }
{
    groups.sort_by_key(|group| u64::MAX - group.number)
}
