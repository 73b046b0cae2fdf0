//! What is inspected of a trail, as rows of CSV.
ghost use Rattle.std.specs.Prelude.{◌≡◌, [], OnOk};
ghost use Rattle.nmvs_alerts.specs.Inspected as specs;

use nmvs_cases::{Author, Reader};
use nmvs_identifier::{Batch, Pack, ProductCode};
use nmvs_inspect::{
    AnswerFault, By, Filter, Form, write_groups, write_list, write_packs, write_report_rows,
    write_story,
};
use nmvs_shard::Shard;
use nmvs_stream::{Failed, Sink};
use std::alloc::{Allocator, Global};

/// What is inspected.
#[derive(Clone, Copy)]
pub enum Inspected<'t> {
    /// The entries that a filter takes.
    Entries(Filter),
    /// How many of these have the same parts.
    Counts(Filter, &'t [By]),
    /// The story of a pack.
    Pack(Pack),
    /// The packs of a batch.
    Packs(ProductCode, Batch),
    /// The report of a product code.
    Report(ProductCode),
}

/// Whether somebody may inspect the whole trail: an authority alone (Articles 35(1)(i) and 39).
pub(crate) fn may_inspect(author: &Author) -> bool
    ensures { result ≡ specs.may_inspect author.now }
{
    matches!(author.reader(), Reader::Authority)
}

/// Writes rows of CSV with a header, as the checker of exports does.
///
/// # Errors
///
/// There is no memory, or they cannot be written.
pub(crate) fn write_rows<A: Allocator, W: Sink>(
    alloc: Global,
    shard: &Shard<A>,
    inspected: &Inspected<'_>,
    sink: &mut W,
) -> Result<(), AnswerFault>
    ensures { OnOk result (specs.AreRows inspected.now shard.now (W.taken sink.old) (W.taken sink.new)) }
{
    match inspected {
        Inspected::Entries(filter) => write_list(alloc, shard, filter, Form::Csv, sink),
        Inspected::Counts(filter, by) => write_groups(alloc, shard, filter, *by, Form::Csv, sink),
        Inspected::Pack(pack) => write_story(alloc, shard, pack, Form::Csv, sink),
        Inspected::Packs(code, batch) => write_packs(alloc, shard, code, batch, Form::Csv, sink),
        Inspected::Report(code) => write_report_rows(alloc, shard, &[*code], sink),
    }
}

/// Rows that are gathered, up to a number of bytes.
#[derive(Drop)]
pub(crate) struct GatheredRows {
    pub bytes: Vec<u8>,
    most: usize,
    flushed: bool,
    failed: bool,
}

impl GatheredRows {
    /// None, and room for this number of bytes at most.
    pub fn new(alloc: Global, most: usize) -> GatheredRows
        ensures { result.bytes.items ≡ [] }
    {
        GatheredRows {
            bytes: Vec::new(alloc),
            most,
            flushed: true,
            failed: false,
        }
    }
}

impl Sink for GatheredRows {
    ghost use Rattle.nmvs_stream.specs.Sink.{Taken};

    ghost taken = { λ g. record { bytes = g.bytes.items; flushed = g.flushed; failed = g.failed } };

    fn write(&mut self, buffer: &[u8]) -> Result<usize, Failed> {
        if self.most.saturating_sub(self.bytes.len()) < buffer.len() {
            self.failed = true;
            return Err(Failed);
        }
        match self.bytes.extend_from_slice(buffer) {
            Ok(()) => {
                self.flushed = self.flushed && buffer.is_empty();
                Ok(buffer.len())
            }
            Err(_) => {
                self.failed = true;
                Err(Failed)
            }
        }
    }

    fn flush(&mut self) -> Result<(), Failed> {
        self.flushed = true;
        Ok(())
    }
}
