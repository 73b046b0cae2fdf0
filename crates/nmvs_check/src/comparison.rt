//! The comparison of two exports.
ghost use Rattle.std.specs.Prelude.{◌≡◌, ◌≢◌, false, IfOk, IfErr, string_bytes};
ghost use Rattle.nmvs_record.specs.declared.finding.Finding.{Finding as AFinding};
ghost use Rattle.nmvs_reader.specs.Lines.{Imported};
ghost use Rattle.nmvs_record.specs.Import.{Imports, FailsToImport};
ghost use Rattle.nmvs_check.specs.Comparison as spec;

use crate::answers::{codes_named, write};
use nmvs_inspect::{AnswerFault, Departure, first_departure};
use nmvs_line::entry_line;
use nmvs_record::{Finding, examine};
use nmvs_shard::{HashKey, Shard};
use nmvs_stream::{Sink, Source};
use std::alloc::{AllocError, Global};

/// The fault of a comparison of two exports.
#[derive(Clone, Copy)]
pub(crate) enum CompareFault {
    /// The old one is no export of a lawful trail, or was not read to its end.
    Old(Finding),
    /// The old one is lawful, and the new one is not, or was not read to its end.
    New(Finding),
    /// Both are lawful, and the answer was not written to its end.
    Answer(AnswerFault),
}

/// Reads two exports to their ends, and writes and returns whether the new one goes on from the old one.
///
/// # Errors
///
/// One of them is no export of a lawful trail, or this number of reads did not reach its end: then nothing is written. Or
/// there is no memory, or the answer cannot be written.
pub(crate) fn compare<R: Source, W: Sink>(
    alloc: Global,
    key: HashKey,
    old: &mut R,
    new: &mut R,
    sink: &mut W,
    reads: u64,
) -> Result<bool, CompareFault>
    requires old_open { (R.told old.old).ended ≡ false }
    requires new_open { (R.told new.old).ended ≡ false }
    ensures told { IfOk result (λ goes_on. (before : Imported) × Imports (R.told old.old) (R.told old.new) before
        × (after : Imported) × Imports (R.told new.old) (R.told new.new) after
        × spec.Tells before.trail after.trail goes_on (W.taken sink.old) (W.taken sink.new)) }
    ensures old_found { IfErr result (λ fault. (finding : AFinding) → fault ≡ CompareFault.Old finding
        → FailsToImport (R.told old.old) (R.told old.new) reads finding × (W.taken sink.new ≡ W.taken sink.old)) }
    ensures new_found { IfErr result (λ fault. (finding : AFinding) → fault ≡ CompareFault.New finding
        → FailsToImport (R.told new.old) (R.told new.new) reads finding × (W.taken sink.new ≡ W.taken sink.old)) }
{
    let before = examine(alloc, alloc, key, old, reads);
    match &before {
        Err(finding) => Err(CompareFault::Old(*finding)),
        Ok(before) => compare_with(alloc, key, before.shard(), new, sink, reads),
    }
}

/// Reads the new export to its end, and writes and returns whether it goes on from the old trail.
fn compare_with<R: Source, W: Sink>(
    alloc: Global,
    key: HashKey,
    old: &Shard<Global>,
    new: &mut R,
    sink: &mut W,
    reads: u64,
) -> Result<bool, CompareFault>
    requires { (R.told new.old).ended ≡ false }
    ensures told { IfOk result (λ goes_on. (after : Imported) × Imports (R.told new.old) (R.told new.new) after
        × spec.Tells old.now after.trail goes_on (W.taken sink.old) (W.taken sink.new)) }
    ensures old_found { IfErr result (λ fault. (finding : AFinding) → fault ≢ CompareFault.Old finding) }
    ensures new_found { IfErr result (λ fault. (finding : AFinding) → fault ≡ CompareFault.New finding
        → FailsToImport (R.told new.old) (R.told new.new) reads finding × (W.taken sink.new ≡ W.taken sink.old)) }
{
    let after = examine(alloc, alloc, key, new, reads);
    match &after {
        Err(finding) => Err(CompareFault::New(*finding)),
        Ok(after) => match tell(alloc, old, after.shard(), sink) {
            Ok(goes_on) => Ok(goes_on),
            Err(fault) => Err(CompareFault::Answer(fault)),
        },
    }
}

/// Writes and returns whether the new trail goes on from the old one.
fn tell<W: Sink>(
    alloc: Global,
    old: &Shard<Global>,
    new: &Shard<Global>,
    sink: &mut W,
) -> Result<bool, AnswerFault>
    ensures { IfOk result (λ goes_on. spec.Tells old.now new.now goes_on (W.taken sink.old) (W.taken sink.new)) }
{
    match first_departure(alloc, old, new)? {
        None => {
            write(&on_text(alloc, old, new)?, sink)?;
            Ok(true)
        }
        Some(departure) => {
            write(&departure_text(alloc, &departure)?, sink)?;
            Ok(false)
        }
    }
}

/// The answer if the new trail goes on: the number of product codes that the old one names, of its entries, and of the
/// further entries of the new one.
fn on_text(alloc: Global, old: &Shard<Global>, new: &Shard<Global>) -> Result<String, AllocError>
    ensures { IfOk result (λ text. string_bytes text ≡ spec.on_text old.now new.now) }
{
    let products = codes_named(alloc, old)?.len();
    let entries = old.len();
    let more = new.len().saturating_sub(entries);
    format!(in alloc; "GOES ON PRODUCTS {products} ENTRIES {entries} MORE {more}\n")
}

/// The answer if the new trail departs: the number and the product code of the old line, that line, and the line that the
/// new export has in its place, if any.
fn departure_text(alloc: Global, departure: &Departure) -> Result<String, AllocError>
    ensures { IfOk result (λ text. string_bytes text ≡ spec.departure_text departure.now) }
{
    let code = departure.entry.put.question.code();
    let old = entry_line(&departure.entry);
    let (number, code, old) = (departure.number, code.text(), old.as_str());
    match &departure.found {
        Some(found) => {
            let new = entry_line(found);
            let new = new.as_str();
            format!(in alloc; "DEPARTS {number} {code}\nOLD {old}\nNEW {new}\n")
        }
        None => format!(in alloc; "DEPARTS {number} {code}\nOLD {old}\nENDS\n"),
    }
}
