//! A page for a browser.
ghost use Rattle.std.specs.Prelude.{◌≡◌, ◌++◌, List, OnOk};
ghost use Rattle.std.specs.List.{flat_map};
ghost use Rattle.nmvs_rules.specs.declared.entry.Entry.{Entry as AnEntry};
ghost use Rattle.nmvs_stream.specs.Delivery.{Delivers};
ghost use Rattle.nmvs_tables.specs.Listing.{code_batches};
ghost use Rattle.nmvs_tables.specs.Tables.{AreTablesOf};
ghost use Rattle.nmvs_inspect.specs.Groups as groups;
ghost use Rattle.nmvs_inspect.specs.Page as page;
ghost use Rattle.nmvs_inspect.specs.Premises.{ArePremises};
ghost use Rattle.nmvs_inspect.specs.Rows as rows;

use crate::groups::{append_groups, groups_of};
use crate::html::{append_escaped, append_html, append_html_row};
use crate::listing::write_selected;
use crate::premises::append_premises;
use crate::reports::{holder_text, lock_text};
use crate::weeks::append_chart;
use crate::{AnswerFault, By, Filter, Form};
use nmvs_identifier::{Batch, Name, ProductCode};
use nmvs_rules::BatchRecord;
use nmvs_shard::{Shard, Tables};
use nmvs_stream::{Sink, deliver};
use nmvs_words::ReplyKind;
use std::alloc::{AllocError, Allocator, Global};

/// The page up to the verdict: with it each page begins. The styles are for a screen of any width, light or dark, and for paper.
pub const HEAD: &str = "<!DOCTYPE html>\n<html lang=\"en\"><head><meta charset=\"utf-8\">\n\
    <meta name=\"viewport\" content=\"width=device-width, initial-scale=1\">\n\
    <meta http-equiv=\"Content-Security-Policy\" content=\"default-src 'none'; style-src 'unsafe-inline'; script-src 'unsafe-inline'\">\n\
    <title>Export of a medicines verification repository</title>\n<style>\n\
    :root { color-scheme: light dark; --bar: #2a6fb0 }\n\
    body { font: 15px/1.5 system-ui, sans-serif; max-width: 80em; margin: 2em auto; padding: 0 1em }\n\
    pre { font-size: 1.1em; white-space: pre-wrap; overflow-wrap: anywhere }\n\
    .box { overflow: auto; max-height: 45em }\n\
    table { border-collapse: collapse; font-variant-numeric: tabular-nums }\n\
    th, td { text-align: left; vertical-align: top; padding: .2em 1em .2em 0; border-bottom: 1px solid #8886 }\n\
    td:first-child { min-width: 6em }\n\
    @media screen and (max-width: 60em) { th, td { white-space: nowrap } }\n\
    th { position: sticky; top: 0; background: Canvas; cursor: pointer }\n\
    th[aria-sort=ascending]::after { content: ' \\2191' }\n\
    th[aria-sort=descending]::after { content: ' \\2193' }\n\
    .n, .counts td:last-child { text-align: right }\n\
    tbody:empty::after { content: 'None.' }\n\
    figure { margin: 0 0 1em }\n\
    svg { display: block; max-width: 100%; height: 10em; border-bottom: 1px solid #888 }\n\
    rect { fill: var(--bar) }\n\
    @media (prefers-color-scheme: dark) { :root { --bar: #7ab8f5 } }\n\
    @page { size: A4 landscape; margin: 12mm }\n\
    @media print { body { font-size: 8pt; max-width: none; margin: 0; padding: 0 } .box { overflow: visible; max-height: none }\n\
    th { position: static } th, td { padding-right: .6em } tr, figure { break-inside: avoid } h2 { break-after: avoid } }\n\
    </style></head><body>\n<h1>Export of a medicines verification repository</h1>\n<pre>";

/// From the verdict to the rows of product codes.
const PRODUCTS: &str =
    "</pre>\n<p>Days, weeks and times are of UTC; a week is named by its Monday. A click on the head of a column sorts.</p>\n\
    <h2>Product codes</h2>\n<div class=box><table><thead><tr><th>Product code</th><th>Holder</th><th class=n>Alerts</th>\
    <th class=n>Flagged</th></tr></thead><tbody>";

/// From there to the rows of batches.
const BATCHES: &str =
    "</tbody></table></div>\n<h2>Batches</h2>\n<div class=box><table><thead><tr><th>Product code</th><th>Batch</th><th>Lock</th>\
    <th class=n>Active</th><th class=n>Held</th><th class=n>Supplied</th><th class=n>Exported</th><th class=n>Sampled</th>\
    <th class=n>Destroyed</th><th class=n>Stolen</th></tr></thead><tbody>";

/// From there to the picture of weeks.
const CHART: &str = "</tbody></table></div>\n<h2>Alerts by week</h2>\n";

/// From there to the rows of weeks.
const WEEKS: &str =
    "<div class=box><table class=counts><thead><tr><th>Week</th><th class=n>Alerts</th></tr></thead><tbody>";

/// From there to the rows of premises.
const PREMISES: &str =
    "</tbody></table></div>\n<h2>Premises with the most flagged alerts</h2>\n<div class=box><table class=counts><thead><tr>\
    <th>Authorisation</th><th>Premises</th><th class=n>Flagged alerts</th></tr></thead><tbody>";

/// From there to the rows of flagged alerts.
const ALERTS: &str =
    "</tbody></table></div>\n<h2>Flagged alerts</h2>\n<div class=box><table><thead><tr><th>Moment</th><th>User</th>\
    <th>Authorisation</th><th>Premises</th><th>Question</th><th>Product code</th><th>Serial number</th><th>Reply</th><th>Role</th>\
    <th>Batch</th></tr></thead><tbody>";

/// From there to the end. The script sorts a table by a column, upwards and at the next click downwards.
const FOOT: &str = "</tbody></table></div>\n<script>\n\
    for (const head of document.querySelectorAll('th')) {\n\
    head.tabIndex = 0;\n\
    head.onkeydown = event => { if (event.key === 'Enter') head.click() };\n\
    head.onclick = () => {\n\
    const way = head.ariaSort === 'ascending' ? 'descending' : 'ascending';\n\
    const body = head.closest('table').tBodies[0];\n\
    const text = row => row.cells[head.cellIndex].textContent;\n\
    const rows = [...body.rows].sort((a, b) => text(a).localeCompare(text(b), 'en', { numeric: true }));\n\
    for (const other of head.parentNode.cells) other.removeAttribute('aria-sort');\n\
    head.setAttribute('aria-sort', way);\n\
    body.append(...(way === 'ascending' ? rows : rows.reverse()));\n\
    };\n\
    }\n\
    </script>\n</body></html>\n";

/// Writes a page for a browser. It has a verdict, these product codes with their counts, and alerts by week (Articles
/// 36 and 40; the form is own). It ends with the 20 premises with the most flagged alerts, and the flagged alerts.
/// Weeks and alerts come oldest first. The page needs nothing from elsewhere.
///
/// It takes memory for the rows of product codes, batches and weeks, and for one block of the rows of alerts. It also takes
/// memory for references to the alerts, and for groups of them.
///
/// # Errors
///
/// There is no memory for a row, or a write failed.
pub fn write_page<A: Allocator, W: Sink>(
    alloc: Global,
    shard: &Shard<A>,
    verdict: &str,
    codes: &[ProductCode],
    sink: &mut W,
) -> Result<(), AnswerFault>
    ensures { OnOk result ((each : List groups.Group) × groups.AreSingle page.alerts shard.now each
        × ((most : List groups.Group) × ArePremises page.flagged_alerts shard.now most
        × ((ds : List rows.Dated) × rows.AreTaken page.flagged_alerts shard.now ds
        × Delivers (W.taken sink.old) (W.taken sink.new) (page.page_text verdict.now shard.now codes.now each most ds)))) }
{
    let mut block = Vec::new(alloc);
    append_front(alloc, &mut block, shard, verdict, codes)?;
    append_weeks(alloc, &mut block, shard)?;
    append_most(alloc, &mut block, shard)?;
    write_alerts(alloc, &mut block, shard, sink)
}

/// Puts the verdict and the rows of product codes and their batches at the end of a block.
fn append_front<A: Allocator>(
    alloc: Global,
    block: &mut Vec<u8>,
    shard: &Shard<A>,
    verdict: &str,
    codes: &[ProductCode],
) -> Result<(), AllocError>
    ensures { OnOk result (block.new.items ≡ block.old.items ++ page.front_text verdict.now shard.now codes.now) }
{
    let tables = shard.tables();
    append_head(block, verdict)?;
    append_products(alloc, block, tables, codes)?;
    append_html(block, BATCHES)?;
    append_batches(alloc, block, tables, codes)
}

fn append_head(block: &mut Vec<u8>, verdict: &str) -> Result<(), AllocError>
    ensures { OnOk result (block.new.items ≡ block.old.items ++ page.head_text verdict.now) }
{
    append_html(block, HEAD)?;
    append_escaped(block, verdict.as_bytes())?;
    append_html(block, PRODUCTS)
}

fn append_products<A: Allocator>(
    alloc: Global,
    block: &mut Vec<u8>,
    tables: &Tables<A>,
    codes: &[ProductCode],
) -> Result<(), AllocError>
    ensures { (t : List AnEntry) → AreTablesOf tables.now t →
        OnOk result (block.new.items ≡ block.old.items ++ flat_map (page.product_row t) codes.now) }
{
    for code in codes {
        append_product(alloc, block, tables, code)?;
    }
    Ok(())
}

fn append_product<A: Allocator>(
    alloc: Global,
    block: &mut Vec<u8>,
    tables: &Tables<A>,
    code: &ProductCode,
) -> Result<(), AllocError>
    ensures { (t : List AnEntry) → AreTablesOf tables.now t →
        OnOk result (block.new.items ≡ block.old.items ++ page.product_row t code.now) }
{
    let holder = tables.holder(code);
    let (alerts, flagged) = tables.alerts(code);
    append_holder(alloc, block, code, &holder, alerts, flagged)
}

fn append_holder(
    alloc: Global,
    block: &mut Vec<u8>,
    code: &ProductCode,
    holder: &Option<Name>,
    alerts: u64,
    flagged: u64,
) -> Result<(), AllocError>
    ensures { OnOk result (block.new.items ≡ block.old.items ++ page.holder_row code.now holder.now alerts flagged) }
{
    let texts = [code.text().as_bytes(), holder_text(holder).as_bytes()];
    append_html_row(alloc, block, &texts, &[alerts, flagged])
}

/// Puts the rows of all batches of product codes at the end of a block.
fn append_batches<A: Allocator>(
    alloc: Global,
    block: &mut Vec<u8>,
    tables: &Tables<A>,
    codes: &[ProductCode],
) -> Result<(), AllocError>
    ensures { (t : List AnEntry) → AreTablesOf tables.now t →
        OnOk result (block.new.items ≡ block.old.items ++ flat_map (page.batch_rows t) codes.now) }
{
    for code in codes {
        append_code_batches(alloc, block, tables, code)?;
    }
    Ok(())
}

fn append_code_batches<A: Allocator>(
    alloc: Global,
    block: &mut Vec<u8>,
    tables: &Tables<A>,
    code: &ProductCode,
) -> Result<(), AllocError>
    ensures { (t : List AnEntry) → AreTablesOf tables.now t → OnOk result
        (block.new.items ≡ block.old.items ++ flat_map (page.batch_row t code.now) (code_batches t code.now)) }
{
    for index in 0..tables.batches_of(code) {
        match tables.batch_of(code, index) {
            Some(found) => append_batch(alloc, block, code, &found.0, &found.1)?,
            None => {}
        }
    }
    Ok(())
}

fn append_batch(
    alloc: Global,
    block: &mut Vec<u8>,
    code: &ProductCode,
    batch: &Batch,
    kept: &BatchRecord,
) -> Result<(), AllocError>
    ensures { OnOk result (block.new.items ≡ block.old.items ++ page.record_row code.now batch.now kept.now) }
{
    let texts = [
        code.text().as_bytes(),
        batch.text().as_bytes(),
        lock_text(kept).as_bytes(),
    ];
    let counts = kept.counts;
    let numbers = [
        counts.active,
        counts.held,
        counts.supplied,
        counts.exported,
        counts.sampled,
        counts.destroyed,
        counts.stolen,
    ];
    append_html_row(alloc, block, &texts, &numbers)
}

/// Puts the picture and the rows of alerts by week at the end of a block.
fn append_weeks<A: Allocator>(
    alloc: Global,
    block: &mut Vec<u8>,
    shard: &Shard<A>,
) -> Result<(), AllocError>
    ensures { OnOk result ((each : List groups.Group) × groups.AreSingle page.alerts shard.now each
        × (block.new.items ≡ block.old.items ++ page.weeks_text (groups.groups_of page.by_week each))) }
{
    let alerts = alerts();
    let weeks = groups_of(alloc, shard, &alerts, &[By::Week])?;
    append_html(block, CHART)?;
    append_chart(alloc, block, &weeks)?;
    append_html(block, WEEKS)?;
    append_groups(alloc, block, Form::Html, &[By::Week], &weeks)
}

/// Puts the premises with the most flagged alerts at the end of a block.
fn append_most<A: Allocator>(
    alloc: Global,
    block: &mut Vec<u8>,
    shard: &Shard<A>,
) -> Result<(), AllocError>
    ensures { OnOk result ((most : List groups.Group) × ArePremises page.flagged_alerts shard.now most
        × (block.new.items ≡ block.old.items ++ page.premises_text most)) }
{
    append_html(block, PREMISES)?;
    append_premises(alloc, block, shard, &flagged_alerts())
}

fn alerts() -> Filter
    ensures { result ≡ page.alerts }
{
    Filter {
        reply: Some(ReplyKind::Alert),
        ..Filter::new()
    }
}

fn flagged_alerts() -> Filter
    ensures { result ≡ page.flagged_alerts }
{
    Filter {
        flagged: true,
        ..Filter::new()
    }
}

/// Writes the text of a block, the rows of flagged alerts, and the end of the page.
fn write_alerts<A: Allocator, W: Sink>(
    alloc: Global,
    block: &mut Vec<u8>,
    shard: &Shard<A>,
    sink: &mut W,
) -> Result<(), AnswerFault>
    ensures { OnOk result ((ds : List rows.Dated) × rows.AreTaken page.flagged_alerts shard.now ds
        × Delivers (W.taken sink.old) (W.taken sink.new) (block.old.items ++ page.alerts_text ds)) }
{
    let filter = flagged_alerts();
    append_html(block, ALERTS)?;
    write_selected(alloc, block, shard, &filter, Form::Html, sink)?;
    append_html(block, FOOT)?;
    Ok(deliver(sink, block)?)
}
