//! The reports of product codes as rows.
ghost use Rattle.std.specs.Prelude.{◌≡◌, ◌++◌, List, map, IfOk, OnOk, string_bytes};
ghost use Rattle.std.specs.List.{flat_map};
ghost use Rattle.nmvs_rules.specs.declared.entry.Entry.{Entry as AnEntry};
ghost use Rattle.nmvs_stream.specs.Delivery.{Delivers};
ghost use Rattle.nmvs_tables.specs.Listing.{code_batches};
ghost use Rattle.nmvs_tables.specs.Tables.{AreTablesOf};
ghost use Rattle.nmvs_words.specs.Words.{lock_word as word_of_lock};
ghost use Rattle.nmvs_reports.specs.Report.{holder_word};
ghost use Rattle.nmvs_inspect.specs.Reports as reports;

use crate::AnswerFault;
use crate::gathering::write_full;
use crate::rows::csv_row;
use nmvs_identifier::{Batch, Name, ProductCode};
use nmvs_rules::{BatchRecord, Counts};
use nmvs_shard::{Shard, Tables};
use nmvs_stream::{Sink, deliver};
use nmvs_words::lock_word;
use std::alloc::{AllocError, Allocator, Global};

/// The columns of reports.
const HEADS: &str =
    "code,batch,holder,alerts,flagged,lock,active,held,supplied,exported,sampled,destroyed,stolen\n";

/// Writes the reports of product codes as rows of CSV (Articles 36 and 40; the form is own). Each product code has a
/// row, and each of its batches.
///
/// It takes memory for one block of rows and those of a product code.
///
/// # Errors
///
/// There is no memory for a row, or a write failed.
pub fn write_report_rows<A: Allocator, W: Sink>(
    alloc: Global,
    shard: &Shard<A>,
    codes: &[ProductCode],
    sink: &mut W,
) -> Result<(), AnswerFault>
    ensures { OnOk result (Delivers (W.taken sink.old) (W.taken sink.new) (reports.rows_text shard.now codes.now)) }
{
    let tables = shard.tables();
    let mut block = Vec::new(alloc);
    block.extend_from_slice(HEADS.as_bytes())?;
    for code in codes {
        append_product(alloc, &mut block, tables, code)?;
        append_batches(alloc, &mut block, tables, code)?;
        write_full(&mut block, sink)?;
    }
    Ok(deliver(sink, &block)?)
}

/// Puts the row of a product code at the end of a block.
fn append_product<A: Allocator>(
    alloc: Global,
    block: &mut Vec<u8>,
    tables: &Tables<A>,
    code: &ProductCode,
) -> Result<(), AllocError>
    ensures { (t : List AnEntry) → AreTablesOf tables.now t →
        OnOk result (block.new.items ≡ block.old.items ++ reports.product_row t code.now) }
{
    let holder = tables.holder(code);
    append_holder(alloc, block, code, &holder)?;
    let (alerts, flagged) = tables.alerts(code);
    append_alerts(alloc, block, alerts, flagged)
}

/// Puts a product code and its holder at the end of a block.
fn append_holder(
    alloc: Global,
    block: &mut Vec<u8>,
    code: &ProductCode,
    holder: &Option<Name>,
) -> Result<(), AllocError>
    ensures { OnOk result (block.new.items ≡ block.old.items ++ reports.holder_cells code.now holder.now) }
{
    let cells = [code.text().as_bytes(), b"", holder_text(holder).as_bytes()];
    append_front(alloc, block, &cells)
}

/// Puts the number of alerts, and that of flagged alerts, at the end of a block, with LF.
fn append_alerts(
    alloc: Global,
    block: &mut Vec<u8>,
    alerts: u64,
    flagged: u64,
) -> Result<(), AllocError>
    ensures { OnOk result (block.new.items ≡ block.old.items ++ reports.alert_numbers alerts flagged) }
{
    let numbers = format!(in alloc; ",{alerts},{flagged},,,,,,,,\n")?;
    block.extend_from_slice(numbers.as_bytes())
}

/// The name of a holder, or a character that begins no name if there is no holder.
pub(crate) fn holder_text(holder: &Option<Name>) -> &str
    ensures { result.now ≡ holder_word holder.now }
{
    match holder {
        Some(name) => name.text(),
        None => "-",
    }
}

/// Puts cells at the end of a block as CSV, with no end of line.
fn append_front(alloc: Global, block: &mut Vec<u8>, cells: &[&[u8]]) -> Result<(), AllocError>
    ensures { OnOk result (block.new.items ≡ block.old.items ++ reports.front (map (λ c. c.now) cells.now)) }
{
    let row = csv_row(alloc, cells)?;
    block.extend_from_slice(&row[..row.len().saturating_sub(1)])
}

/// Puts the rows of a product code's batches at the end of a block.
fn append_batches<A: Allocator>(
    alloc: Global,
    block: &mut Vec<u8>,
    tables: &Tables<A>,
    code: &ProductCode,
) -> Result<(), AllocError>
    ensures { (t : List AnEntry) → AreTablesOf tables.now t → OnOk result
        (block.new.items ≡ block.old.items ++ flat_map (reports.batch_row t code.now) (code_batches t code.now)) }
{
    for index in 0..tables.batches_of(code) {
        match tables.batch_of(code, index) {
            Some(found) => append_batch(alloc, block, code, &found.0, &found.1)?,
            None => {}
        }
    }
    Ok(())
}

/// Puts the row of a batch at the end of a block.
fn append_batch(
    alloc: Global,
    block: &mut Vec<u8>,
    code: &ProductCode,
    batch: &Batch,
    kept: &BatchRecord,
) -> Result<(), AllocError>
    ensures { OnOk result (block.new.items ≡ block.old.items ++ reports.record_row code.now batch.now kept.now) }
{
    append_front(
        alloc,
        block,
        &[
            code.text().as_bytes(),
            batch.text().as_bytes(),
            b"",
            b"",
            b"",
            lock_text(kept).as_bytes(),
        ],
    )?;
    append_numbers(alloc, block, &kept.counts)
}

/// The word of a batch's lock.
pub(crate) fn lock_text(kept: &BatchRecord) -> &str
    ensures { result.now ≡ word_of_lock kept.now.lock }
{
    lock_word(kept.lock)
}

/// Puts the number of a batch's packs of each own status at the end of a block, with LF.
fn append_numbers(alloc: Global, block: &mut Vec<u8>, counts: &Counts) -> Result<(), AllocError>
    ensures { OnOk result (block.new.items ≡ block.old.items ++ (reports.first_numbers counts.now ++ reports.other_numbers counts.now)) }
{
    let first = first_numbers(alloc, counts)?;
    let other = other_numbers(alloc, counts)?;
    block.extend_from_slice(first.as_bytes())?;
    block.extend_from_slice(other.as_bytes())
}

fn first_numbers(alloc: Global, counts: &Counts) -> Result<String, AllocError>
    ensures { IfOk result (λ text. string_bytes text ≡ reports.first_numbers counts.now) }
{
    format!(in alloc;
        ",{},{},{},{}",
        counts.active, counts.held, counts.supplied, counts.exported
    )
}

fn other_numbers(alloc: Global, counts: &Counts) -> Result<String, AllocError>
    ensures { IfOk result (λ text. string_bytes text ≡ reports.other_numbers counts.now) }
{
    format!(in alloc;
        ",{},{},{}\n",
        counts.sampled, counts.destroyed, counts.stolen
    )
}
