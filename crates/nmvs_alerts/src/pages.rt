//! Lists of flagged alerts, as JSON.
ghost use Rattle.std.specs.Prelude.{◌≡◌, ◌++◌, OnOk, take};
ghost use Rattle.std.specs.List.{flat_map};
ghost use Rattle.nmvs_alerts.specs.Json.{joined, led};
ghost use Rattle.nmvs_alerts.specs.Pages as pages;

use crate::AlertFilter;
use crate::alert::alert_of;
use crate::flagged::Flagged;
use crate::json::{append, append_decimal};
use crate::row::append_row;
use crate::selection::select;
use crate::viewing::sees_houses;
use nmvs_cases::Author;
use nmvs_shard::Shard;
use std::alloc::{AllocError, Allocator, Global};

/// The most rows of an answer (own).
pub(crate) const MOST_ROWS: usize = 100;

/// Puts the alerts that a reader asks for and sees at the end of a block: the first hundred rows, and where the next ones begin.
pub(crate) fn append_alerts<A: Allocator>(
    alloc: Global,
    block: &mut Vec<u8>,
    shard: &Shard<A>,
    flagged: &[Flagged],
    author: &Author,
    filter: &AlertFilter,
) -> Result<(), AllocError>
    ensures { OnOk result (block.new.items ≡ block.old.items ++ pages.alerts_text shard.now flagged.now author.now filter.now) }
{
    let found = select(alloc, shard, flagged, author, filter)?;
    append_found(alloc, block, shard, &found, sees_houses(author))
}

#[tactic(auto, unfolding(crate::specs::Pages::found_text))]
fn append_found<A: Allocator>(
    alloc: Global,
    block: &mut Vec<u8>,
    shard: &Shard<A>,
    found: &[Flagged],
    with_house: bool,
) -> Result<(), AllocError>
    ensures { OnOk result (block.new.items ≡ block.old.items ++ pages.found_text shard.now with_house found.now) }
{
    append(block, "{\"alerts\":[")?;
    append_rows(alloc, block, shard, found, with_house)?;
    append(block, "],\"next\":\"")?;
    append_next(block, shard, found)?;
    append(block, "\"}")
}

/// Puts the first hundred rows at the end of a block, with commas between them.
fn append_rows<A: Allocator>(
    alloc: Global,
    block: &mut Vec<u8>,
    shard: &Shard<A>,
    found: &[Flagged],
    with_house: bool,
) -> Result<(), AllocError>
    ensures { OnOk result (block.new.items ≡ block.old.items ++ joined (pages.row_of shard.now with_house) (take 100 found.now)) }
{
    let [first, others @ ..] = found else {
        return Ok(());
    };
    append_whole_row(alloc, block, shard, first, with_house)?;
    let shown = (MOST_ROWS - 1).min(others.len());
    append_others(alloc, block, shard, &others[..shown], with_house)
}

/// Puts rows at the end of a block, with a comma before each.
fn append_others<A: Allocator>(
    alloc: Global,
    block: &mut Vec<u8>,
    shard: &Shard<A>,
    others: &[Flagged],
    with_house: bool,
) -> Result<(), AllocError>
    ensures { OnOk result (block.new.items ≡ block.old.items ++ flat_map (led (pages.row_of shard.now with_house)) others.now) }
{
    for other in others {
        append_led_row(alloc, block, shard, other, with_house)?;
    }
    Ok(())
}

fn append_led_row<A: Allocator>(
    alloc: Global,
    block: &mut Vec<u8>,
    shard: &Shard<A>,
    other: &Flagged,
    with_house: bool,
) -> Result<(), AllocError>
    ensures { OnOk result (block.new.items ≡ block.old.items ++ led (pages.row_of shard.now with_house) other.now) }
{
    append(block, ",")?;
    append_whole_row(alloc, block, shard, other, with_house)
}

#[tactic(auto, unfolding(crate::specs::Pages::row_of))]
fn append_whole_row<A: Allocator>(
    alloc: Global,
    block: &mut Vec<u8>,
    shard: &Shard<A>,
    flagged: &Flagged,
    with_house: bool,
) -> Result<(), AllocError>
    ensures { OnOk result (block.new.items ≡ block.old.items ++ pages.row_of shard.now with_house flagged.now) }
{
    match alert_of(shard, flagged) {
        None => Ok(()),
        Some(alert) => {
            append_row(alloc, block, &alert, with_house)?;
            append(block, "}")
        }
    }
}

/// Puts the place of the hundredth alert in the list at the end of a block, if more follow.
#[tactic(auto, unfolding(crate::specs::Pages::next_of))]
fn append_next<A: Allocator>(
    block: &mut Vec<u8>,
    shard: &Shard<A>,
    found: &[Flagged],
) -> Result<(), AllocError>
    ensures { OnOk result (block.new.items ≡ block.old.items ++ pages.next_of shard.now found.now) }
{
    if found.len() <= MOST_ROWS {
        return Ok(());
    }
    let last = &found[MOST_ROWS - 1];
    append(block, letter_of(is_hinted(shard, last)))?;
    append_decimal(block, last.place as u64)
}

fn is_hinted<A: Allocator>(shard: &Shard<A>, flagged: &Flagged) -> bool
    ensures { result ≡ pages.is_hinted shard.now flagged.now }
{
    match alert_of(shard, flagged) {
        Some(alert) => alert.hint.is_some(),
        None => false,
    }
}

fn letter_of(hinted: bool) -> &'static str
    ensures { result.now ≡ pages.letter_of hinted }
{
    if hinted { "h" } else { "u" }
}
