//! Entries that are counted in groups.
ghost use Rattle.std.specs.Prelude.{◌≡◌, ◌+◌, ◌<◌, ◌≤◌, ◌^◌, ◌++◌, ◌∷◌, List, map, pos, IfOk, OnOk, take, length, slice_index_or, slice_set, not, [], if◌then◌else◌};
ghost use Rattle.std.specs.List.{All, flat_map, list_any, position_or_len};
ghost use Rattle.std.specs.Str.{bytes_eq};
ghost use Rattle.jiff_core.specs.Date.{epoch_day};
ghost use Rattle.jiff_core.specs.Calendar.{IsEpochDay};
ghost use Rattle.jiff_fmt.specs.Text.{date_text};
ghost use Rattle.nmvs_stream.specs.Delivery.{Delivers};
ghost use Rattle.nmvs_inspect.specs.Groups as spec;
ghost use Rattle.nmvs_inspect.specs.Rows.{row_in};

use crate::placed::Placed;
use crate::replies::cause_text;
use crate::rows::append_row;
use crate::selection::select;
use crate::{AnswerFault, By, Filter, Form};
use indexmap::IndexSet;
use jiff::civil::Date;
use jiff_core::civil;
use nmvs_rules::Entry;
use nmvs_shard::{HashKey, Shard};
use nmvs_stream::{Sink, deliver};
use nmvs_words::{QuestionKind, ReplyKind, role_word};
use std::alloc::{AllocError, Allocator, Global};

/// Entries that have the same parts.
#[derive(Clone, Copy)]
pub(crate) struct Group {
    /// The first of them.
    pub first: Entry,
    /// The day of its moment, by UTC.
    pub day: Date,
    /// The Monday of its week.
    pub monday: Date,
    /// The number of these entries.
    pub number: u64,
}

/// Counts the entries that a filter takes by their parts, and writes a row a group. The rows are in order of first appearance
/// in the list of these entries, oldest first. So the groups of a day, a week or a month come in order of time.
///
/// It takes memory for the place of each entry, and for the groups and their rows. A trail that is not in order of time
/// takes the memory for the places twice.
///
/// # Errors
///
/// There is no memory for the places, a group or a row, or a write failed.
pub fn write_groups<A: Allocator, W: Sink>(
    alloc: Global,
    shard: &Shard<A>,
    filter: &Filter,
    by: &[By],
    form: Form,
    sink: &mut W,
) -> Result<(), AnswerFault>
    ensures { OnOk result ((ds : List spec.Group) × spec.AreSingle filter.now shard.now ds
        × Delivers (W.taken sink.old) (W.taken sink.new) (spec.groups_text form by.now ds)) }
{
    let groups = groups_of(alloc, shard, filter, by)?;
    let mut block = Vec::new(alloc);
    append_heads(alloc, &mut block, form, by)?;
    append_groups(alloc, &mut block, form, by, &groups)?;
    Ok(deliver(sink, &block)?)
}

/// The groups of the entries that a filter takes.
pub(crate) fn groups_of<A: Allocator>(
    alloc: Global,
    shard: &Shard<A>,
    filter: &Filter,
    by: &[By],
) -> Result<Vec<Group>, AllocError>
    ensures { IfOk result (λ groups. (ds : List spec.Group) × spec.AreSingle filter.now shard.now ds
        × (groups.items ≡ spec.groups_of by.now ds)) }
{
    let entries = select(alloc, shard, filter)?;
    count_all(alloc, shard.tables().key(), by, &entries)
}

/// The groups of entries, in order of first appearance.
fn count_all<A: Allocator>(
    alloc: Global,
    key: HashKey,
    by: &[By],
    entries: &[Placed<'_, A>],
) -> Result<Vec<Group>, AllocError>
    ensures { IfOk result (λ groups. (ds : List spec.Group) × (map (λ d. d.first) ds ≡ entries.now)
        × All spec.IsSingle ds × (groups.items ≡ spec.groups_of by.now ds)) }
{
    let mut keys = IndexSet::with_hasher(alloc, key);
    let mut groups = Vec::new(alloc);
    for (place, placed) in entries.iter().enumerate() {
        let entry = placed.entry();
        let found = single(&entry);
        count(alloc, &mut keys, &mut groups, by, place, &found)?;
    }
    Ok(groups)
}

/// A group of one entry.
fn single(entry: &Entry) -> Group
    ensures entry { result.first ≡ entry.now }
    ensures single { spec.IsSingle result }
{
    let day = entry.put.moment.seconds() as u64 / 86_400;
    let since_monday = (day + 3) % 7;
    Group {
        first: *entry,
        day: date_of(day as i64),
        monday: date_of(day as i64 - since_monday as i64),
        number: 1,
    }
}

/// The date of a day, counted from 1970-01-01.
fn date_of(day: i64) -> Date
    requires { IsEpochDay day }
    ensures { epoch_day result ≡ day }
{
    Date::from_plain(civil::Date::from_unix_epoch_day(day).unwrap())
}

/// Counts one entry in the groups of the entries before this place. The keys are the parts of these groups.
fn count(
    alloc: Global,
    keys: &mut IndexSet<Vec<u8>, HashKey>,
    groups: &mut Vec<Group>,
    by: &[By],
    place: usize,
    found: &Group,
) -> Result<(), AllocError>
    requires keys { spec.HasPartsOf by.now keys.old.keys groups.old.items }
    requires few { spec.HasNumbersUpTo place groups.old.items }
    requires room { place + 1 < 2 ^ 64 }
    requires single { found.now.number ≡ 1 }
    ensures groups { OnOk result (groups.new.items ≡ spec.with_entry by.now groups.old.items found.now) }
    ensures keys { OnOk result (spec.HasPartsOf by.now keys.new.keys groups.new.items) }
    ensures few { OnOk result (spec.HasNumbersUpTo (place + 1) groups.new.items) }
{
    let key = parts(alloc, by, found)?;
    let (index, is_new) = place_of(keys, key)?;
    if is_new {
        append(groups, found)
    } else {
        add_one(groups, index);
        Ok(())
    }
}

/// The place of a key, and whether it is new. A new key comes last.
fn place_of(
    keys: &mut IndexSet<Vec<u8>, HashKey>,
    key: Vec<u8>,
) -> Result<(usize, bool), AllocError>
    ensures place { IfOk result (λ r. r.0 ≡ position_or_len (λ k. bytes_eq key.items k.items) keys.old.keys) }
    ensures new { IfOk result (λ r. r.1 ≡ not (list_any (λ k. bytes_eq key.items k.items) keys.old.keys)) }
    ensures keys { IfOk result (λ r. keys.new.keys ≡ (if r.1 then keys.old.keys ++ key ∷ [] else keys.old.keys)) }
{
    match keys.insert_full(key) {
        Ok(found) => Ok(found),
        Err(_) => Err(AllocError),
    }
}

/// Puts an item at the end of a list.
fn append<T: Copy + Drop>(items: &mut Vec<T>, item: &T) -> Result<(), AllocError>
    ensures { OnOk result (items.new.items ≡ items.old.items ++ item.now ∷ []) }
{
    Ok(items.push(*item)?)
}

/// Counts one more entry in a group.
fn add_one(groups: &mut Vec<Group>, index: usize)
    requires within { index < length groups.old.items }
    requires room { (g : spec.Group) → g ≡ slice_index_or groups.old.items index g → g.number + 1 < 2 ^ 64 }
    ensures { (d : spec.Group) → let g = slice_index_or groups.old.items index d in
        groups.new.items ≡ slice_set groups.old.items index (record g { number = g.number + 1 }) }
{
    groups[index].number += 1;
}

/// The parts of an entry, each with a tabulator after it.
fn parts(alloc: Global, by: &[By], found: &Group) -> Result<Vec<u8>, AllocError>
    ensures { IfOk result (λ text. text.items ≡ spec.parts by.now found.now) }
{
    let mut text = Vec::new(alloc);
    for by in by {
        append_part(alloc, &mut text, found, *by)?;
        text.push(b'\t')?;
    }
    Ok(text)
}

/// Puts one part of an entry at the end of a text.
fn append_part(alloc: Global, text: &mut Vec<u8>, found: &Group, by: By) -> Result<(), AllocError>
    ensures { OnOk result (text.new.items ≡ text.old.items ++ spec.part found.now by) }
{
    let put = &found.first.put;
    let actor = &put.actor;
    match by {
        By::Day => append_date(alloc, text, found.day),
        By::Week => append_date(alloc, text, found.monday),
        By::Month => append_month(alloc, text, found.day),
        By::Cause => text.extend_from_slice(cause_text(&found.first.reply).as_bytes()),
        By::Premises => text.extend_from_slice(actor.premises.text().as_bytes()),
        By::Authorisation => text.extend_from_slice(actor.authorisation.text().as_bytes()),
        By::Code => text.extend_from_slice(put.question.code().text().as_bytes()),
        By::User => text.extend_from_slice(put.user.text().as_bytes()),
        By::Role => text.extend_from_slice(role_word(actor.role).as_bytes()),
        By::Word => text.extend_from_slice(QuestionKind::of(&put.question).word().as_bytes()),
        By::Reply => text.extend_from_slice(ReplyKind::of(&found.first.reply).word().as_bytes()),
    }
}

/// Puts `2026-01-31` at the end of a text.
fn append_date(alloc: Global, text: &mut Vec<u8>, date: Date) -> Result<(), AllocError>
    ensures { OnOk result (text.new.items ≡ text.old.items ++ date_text date) }
{
    let written = format!(in alloc; "{date}")?;
    text.extend_from_slice(written.as_bytes())
}

/// Puts `2026-01` at the end of a text.
fn append_month(alloc: Global, text: &mut Vec<u8>, date: Date) -> Result<(), AllocError>
    ensures { OnOk result (text.new.items ≡ text.old.items ++ take 7 (date_text date)) }
{
    let written = format!(in alloc; "{date}")?;
    let bytes = written.as_bytes();
    text.extend_from_slice(&bytes[..bytes.len().min(7)])
}

/// Puts the heads of the columns at the end of a block.
fn append_heads(alloc: Global, block: &mut Vec<u8>, form: Form, by: &[By]) -> Result<(), AllocError>
    ensures { OnOk result (block.new.items ≡ block.old.items ++ spec.heads form by.now) }
{
    let cells = head_cells(alloc, by)?;
    append_row(alloc, block, &widths(alloc, by)?, form, &cells)
}

/// The heads of the columns.
fn head_cells(alloc: Global, by: &[By]) -> Result<Vec<&'static [u8]>, AllocError>
    ensures { IfOk result (λ cells. map (λ c. c.now) cells.items ≡ spec.head_cells by.now) }
{
    let mut cells: Vec<&'static [u8]> = Vec::new(alloc);
    for by in by {
        cells.push(by.word().as_bytes())?;
    }
    cells.push(b"entries")?;
    Ok(cells)
}

/// Puts the rows of groups at the end of a block.
pub(crate) fn append_groups(
    alloc: Global,
    block: &mut Vec<u8>,
    form: Form,
    by: &[By],
    groups: &[Group],
) -> Result<(), AllocError>
    ensures { OnOk result (block.new.items ≡ block.old.items ++ flat_map (spec.group_row form by.now) groups.now) }
{
    let widths = widths(alloc, by)?;
    for group in groups {
        let texts = group_texts(alloc, by, group)?;
        append_texts(alloc, block, &widths, form, &texts)?;
    }
    Ok(())
}

/// Puts a row of texts at the end of a block.
fn append_texts(
    alloc: Global,
    block: &mut Vec<u8>,
    widths: &[u8],
    form: Form,
    texts: &[Vec<u8>],
) -> Result<(), AllocError>
    ensures { OnOk result (block.new.items ≡ block.old.items ++ row_in widths.now form (map (λ t. t.items) texts.now)) }
{
    let mut cells: Vec<&[u8]> = Vec::new(alloc);
    for text in texts {
        cells.push(text.as_slice())?;
    }
    append_row(alloc, block, widths, form, &cells)
}

/// The parts of a group, and how many entries it has.
fn group_texts(alloc: Global, by: &[By], group: &Group) -> Result<Vec<Vec<u8>>, AllocError>
    ensures { IfOk result (λ texts. map (λ t. t.items) texts.items ≡ spec.group_cells by.now group.now) }
{
    let mut texts = Vec::new(alloc);
    for by in by {
        let mut text = Vec::new(alloc);
        append_part(alloc, &mut text, group, *by)?;
        texts.push(text)?;
    }
    let number = format!(in alloc; "{}", group.number)?;
    texts.push(number.as_bytes().to_vec(alloc)?)?;
    Ok(texts)
}

/// The widths of the columns of a table.
fn widths(alloc: Global, by: &[By]) -> Result<Vec<u8>, AllocError>
    ensures { IfOk result (λ widths. widths.items ≡ map spec.by_width by.now) }
{
    by.iter().map(|by| by.width()).collect(alloc)
}
