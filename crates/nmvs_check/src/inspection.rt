//! The check of an export.
ghost use Rattle.std.specs.Prelude.{◌≡◌, ◌<◌, ◌^◌, false, IfOk, IfErr};
ghost use Rattle.nmvs_record.specs.declared.finding.Finding.{Finding as AFinding};
ghost use Rattle.nmvs_reader.specs.Lines.{Imported};
ghost use Rattle.nmvs_record.specs.Import.{Imports, FailsToImport};
ghost use Rattle.nmvs_parts.specs.Import as parts;
ghost use Rattle.nmvs_parts.specs.declared.examination.PartImport.{PartImport};
ghost use Rattle.nmvs_check.specs.Answers as answers;

use crate::answers::{tell, tell_part, untaken};
use crate::inspect_fault::InspectFault;
use crate::request::Request;
use nmvs_parts::{Part, examine_part};
use nmvs_record::examine;
use nmvs_shard::HashKey;
use nmvs_stream::{Sink, Source};
use std::alloc::Global;

/// Reads an export to its end, and writes the answer to a request. It returns the number of entries, if the request is about
/// those that a filter takes, and the filter takes none.
///
/// # Errors
///
/// The input is no export of a lawful trail, or this number of reads did not reach its end: then nothing is written. Or
/// there is no memory, or the answer cannot be written.
pub(crate) fn inspect<R: Source, W: Sink>(
    alloc: Global,
    key: HashKey,
    source: &mut R,
    sink: &mut W,
    request: &Request,
    reads: u64,
) -> Result<Option<usize>, InspectFault>
    requires source_open { (R.told source.old).ended ≡ false }
    ensures lawful { IfOk result (λ untaken. (it : Imported) × Imports (R.told source.old) (R.told source.new) it
        × answers.Tells it request.now (W.taken sink.old) (W.taken sink.new) × (untaken ≡ answers.untaken it.trail request.now)) }
    ensures found { IfErr result (λ fault. (finding : AFinding) → fault ≡ InspectFault.Found finding
        → FailsToImport (R.told source.old) (R.told source.new) reads finding × (W.taken sink.new ≡ W.taken sink.old)) }
{
    match examine(alloc, alloc, key, source, reads) {
        Err(finding) => Err(InspectFault::Found(finding)),
        Ok(importer) => match tell(alloc, &importer, request, sink) {
            Ok(()) => Ok(untaken(importer.shard(), request)),
            Err(fault) => Err(InspectFault::Answer(fault)),
        },
    }
}

/// Reads an export to its end, and writes the answer to a request about a part of it. It returns the number of the part's
/// entries, if the request is about those that a filter takes, and the filter takes none of them.
///
/// # Errors
///
/// Those of `inspect`, where the part's own lines alone are judged.
pub(crate) fn inspect_part<R: Source, W: Sink>(
    alloc: Global,
    key: HashKey,
    part: Part,
    source: &mut R,
    sink: &mut W,
    request: &Request,
    reads: u64,
) -> Result<Option<usize>, InspectFault>
    requires source_open { (R.told source.old).ended ≡ false }
    requires few { reads < 2 ^ 51 }
    ensures lawful { IfOk result (λ untaken. (p : PartImport) × parts.Imports part (R.told source.old) (R.told source.new) p
        × answers.TellsPart part p request.now (W.taken sink.old) (W.taken sink.new) × (untaken ≡ answers.untaken p.importer.trail request.now)) }
    ensures found { IfErr result (λ fault. (finding : AFinding) → fault ≡ InspectFault.Found finding
        → parts.FailsToImport part (R.told source.old) (R.told source.new) reads finding × (W.taken sink.new ≡ W.taken sink.old)) }
{
    let import = match examine_part(alloc, key, part, source, reads) {
        Ok(import) => import,
        Err(finding) => return Err(InspectFault::Found(finding)),
    };
    match tell_part(alloc, part, &import, request, sink) {
        Ok(()) => Ok(untaken(import.importer.shard(), request)),
        Err(fault) => Err(InspectFault::Answer(fault)),
    }
}
