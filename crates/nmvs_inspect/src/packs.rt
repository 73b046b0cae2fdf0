//! The packs of a batch.
ghost use Rattle.std.specs.Prelude.{◌≡◌, ◌++◌, ◌*◌, List, OnOk, pos};
ghost use Rattle.jiff_core.specs.DateTime.{civil_nanos};
ghost use Rattle.nmvs_rules.specs.Trail.{is_birth_in};
ghost use Rattle.nmvs_stream.specs.Delivery.{Delivers};
ghost use Rattle.nmvs_words.specs.Words.{own_word as word_of_own};
ghost use Rattle.nmvs_inspect.specs.Packs as packs;

use crate::gathering::write_full;
use crate::rows::{append_row, date_and_time, moment_text, serial_text};
use crate::{AnswerFault, Form};
use jiff::civil::DateTime;
use nmvs_identifier::{Batch, ProductCode};
use nmvs_rules::{Entry, Known, Question};
use nmvs_shard::Shard;
use nmvs_stream::{Sink, deliver};
use nmvs_words::own_word;
use std::alloc::{AllocError, Allocator, Global};

/// The columns of a list of packs.
const COLUMNS: [&[u8]; 6] = [
    b"serial",
    b"expiry",
    b"status",
    b"moment",
    b"authorisation",
    b"premises",
];

/// The widths of the columns of a table. A longer cell makes its row longer.
const WIDTHS: [u8; 5] = [20, 6, 9, 19, 13];

/// Writes the packs of a batch, in the order of their accepted uploads (Article 35(1)(g); the form is own). A row has
/// the own status of its pack at the end of the shard's trail. It says since when the pack has that status, under which
/// authorisation and at which premises.
///
/// It takes memory for one block of rows, however many packs there are.
///
/// # Errors
///
/// There is no memory for a row, or a write failed.
pub fn write_packs<A: Allocator, W: Sink>(
    alloc: Global,
    shard: &Shard<A>,
    code: &ProductCode,
    batch: &Batch,
    form: Form,
    sink: &mut W,
) -> Result<(), AnswerFault>
    ensures { OnOk result ((ps : List (packs.Standing shard.now)) × packs.AreOfBatch code.now batch.now shard.now ps
        × Delivers (W.taken sink.old) (W.taken sink.new) (packs.packs_text form shard.now ps)) }
{
    let tables = shard.tables();
    let mut block = Vec::new(alloc);
    append_heads(alloc, &mut block, form)?;
    for place in 0..shard.len() {
        let entry = shard.entry_at(place).unwrap();
        if is_upload_in(code, batch, &entry) {
            let known = tables.facts(&entry.put.question).pack.unwrap();
            let at = mark_time(&known);
            append_pack(alloc, &mut block, form, at, &entry, &known)?;
            write_full(&mut block, sink)?;
        }
    }
    Ok(deliver(sink, &block)?)
}

/// Puts the heads of the columns at the end of a block.
fn append_heads(alloc: Global, block: &mut Vec<u8>, form: Form) -> Result<(), AllocError>
    ensures { OnOk result (block.new.items ≡ block.old.items ++ packs.heads form) }
{
    append_row(alloc, block, &WIDTHS, form, &COLUMNS)
}

/// Whether an entry is an accepted upload of a pack of the batch.
fn is_upload_in(code: &ProductCode, batch: &Batch, entry: &Entry) -> bool
    ensures { result ≡ is_birth_in code.now batch.now entry.now }
{
    match &entry.put.question {
        Question::Upload {
            pack,
            batch: named,
            ..
        } => *code == pack.code && *batch == *named && entry.is_accepted(),
        _ => false,
    }
}

/// The date and the time of the last accepted entry about a pack, by UTC.
fn mark_time(known: &Known) -> DateTime
    ensures { civil_nanos result ≡ pos (known.now.mark.moment * 1_000_000_000) }
{
    date_and_time(known.mark.moment)
}

/// Puts the row of a pack at the end of a block, by its upload, its known state and the time of its mark.
fn append_pack(
    alloc: Global,
    block: &mut Vec<u8>,
    form: Form,
    at: DateTime,
    upload: &Entry,
    known: &Known,
) -> Result<(), AllocError>
    ensures { OnOk result (block.new.items ≡ block.old.items ++ packs.pack_row form upload.now known.now at) }
{
    let moment = moment_text(alloc, at)?;
    let expiry = known.expiry.text();
    let pack = upload.put.question.pack();
    let cells = [
        serial_text(&pack).as_bytes(),
        expiry.as_bytes(),
        status_text(known).as_bytes(),
        moment.as_bytes(),
        known.mark.authorisation.text().as_bytes(),
        known.mark.premises.text().as_bytes(),
    ];
    append_row(alloc, block, &WIDTHS, form, &cells)
}

/// The word of a pack's own status.
fn status_text(known: &Known) -> &str
    ensures { result.now ≡ word_of_own known.now.own }
{
    own_word(known.own)
}
