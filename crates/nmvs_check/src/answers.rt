//! The answers about a lawful export.
ghost use Rattle.std.specs.Prelude.{◌≡◌, ◌++◌, IfOk, OnOk, string_bytes};
ghost use Rattle.std.specs.List.{flat_map};
ghost use Rattle.nmvs_stream.specs.Delivery.{Delivers};
ghost use Rattle.nmvs_check.specs.Answers as answers;

use crate::request::Request;
use indexmap::IndexSet;
use nmvs_identifier::{Pack, ProductCode};
use nmvs_inspect::{
    AnswerFault, Filter, Form, period_line, story_of, takes_any, write_groups, write_list,
    write_packs, write_page, write_report_rows, write_story,
};
use nmvs_parts::{Part, PartImport};
use nmvs_protocol::reply_text;
use nmvs_record::Importer;
use nmvs_reports::{product_line, report};
use nmvs_rules::Reply;
use nmvs_shard::{HashKey, Shard};
use nmvs_stream::{Sink, deliver};
use std::alloc::{AllocError, Global};

/// Writes the answer to a request about an import.
///
/// # Errors
///
/// There is no memory for the answer, or it cannot be written.
pub(crate) fn tell<W: Sink>(
    alloc: Global,
    importer: &Importer<Shard<Global>>,
    request: &Request,
    sink: &mut W,
) -> Result<(), AnswerFault>
    ensures { OnOk result (answers.Tells importer.now request.now (W.taken sink.old) (W.taken sink.new)) }
{
    let shard = importer.shard();
    match request {
        Request::Summary => write(&summary(alloc, importer)?, sink),
        Request::Report(code) => write(&report(alloc, shard, code)?, sink),
        Request::Reports(Form::Csv) => report_rows(alloc, shard, sink),
        Request::Reports(_) => write(&with_codes(alloc, shard, "", true)?, sink),
        Request::Audit(pack) => write(&audit(alloc, shard, pack)?, sink),
        Request::List(filter, form) => write_list(alloc, shard, filter, *form, sink),
        Request::Count(filter, by, form) => write_groups(alloc, shard, filter, by, *form, sink),
        Request::Page(heading) => page(alloc, importer, heading, sink),
        Request::Story(pack, form) => write_story(alloc, shard, pack, *form, sink),
        Request::Packs(code, batch, form) => write_packs(alloc, shard, code, batch, *form, sink),
    }
}

/// Writes the answer to a request about a part of an export. A summary also names the part and the number of all lines.
///
/// # Errors
///
/// Those of `tell`.
pub(crate) fn tell_part<W: Sink>(
    alloc: Global,
    part: Part,
    import: &PartImport,
    request: &Request,
    sink: &mut W,
) -> Result<(), AnswerFault>
    ensures { OnOk result (answers.TellsPart part import.now request.now (W.taken sink.old) (W.taken sink.new)) }
{
    match request {
        Request::Summary => write(&part_summary(alloc, part, import)?, sink),
        _ => tell(alloc, &import.importer, request, sink),
    }
}

/// The number of entries, if the request is about those that a filter takes, and the filter takes none.
pub(crate) fn untaken(shard: &Shard<Global>, request: &Request) -> Option<usize>
    ensures { result ≡ answers.untaken shard.now request.now }
{
    match request {
        Request::List(filter, _) | Request::Count(filter, _, _) => none_of(shard, filter),
        Request::Story(pack, _) => none_of(shard, &story_of(pack)),
        _ => None,
    }
}

fn none_of(shard: &Shard<Global>, filter: &Filter) -> Option<usize>
    ensures { result ≡ answers.none_of shard.now filter.now }
{
    (!takes_any(shard, filter)).then_some(shard.len())
}

/// Writes a whole text.
pub(crate) fn write<W: Sink>(text: &str, sink: &mut W) -> Result<(), AnswerFault>
    ensures { OnOk result (Delivers (W.taken sink.old) (W.taken sink.new) text.now) }
{
    Ok(deliver(sink, text.as_bytes())?)
}

fn summary(alloc: Global, importer: &Importer<Shard<Global>>) -> Result<String, AllocError>
    ensures { IfOk result (λ text. string_bytes text ≡ answers.summary_text importer.now) }
{
    let counts = counts_text(alloc, importer)?;
    with_codes(alloc, importer.shard(), &counts, false)
}

fn part_summary(alloc: Global, part: Part, import: &PartImport) -> Result<String, AllocError>
    ensures { IfOk result (λ text. string_bytes text ≡ answers.part_summary_text part import.now) }
{
    let (index, count, lines) = (part.index(), part.count(), import.lines);
    let counts = counts_with(alloc, &import.importer, import.repeated)?;
    let counts = format!(in alloc; "PART {index}/{count} OF {lines}\n{counts}")?;
    with_codes(alloc, import.importer.shard(), &counts, false)
}

/// A text, and then for each product code that the entries name its whole report, or the first line of that.
fn with_codes(
    alloc: Global,
    shard: &Shard<Global>,
    front: &str,
    whole: bool,
) -> Result<String, AllocError>
    ensures { IfOk result (λ text. string_bytes text ≡ front.now ++ flat_map (answers.about shard.now whole) (answers.codes_named shard.now)) }
{
    let mut text = String::from_str(alloc, front)?;
    let codes = codes_named(alloc, shard)?;
    append_each(alloc, shard, codes.as_slice(), whole, &mut text)?;
    Ok(text)
}

/// Puts what is said about product codes at the end of a text.
fn append_each(
    alloc: Global,
    shard: &Shard<Global>,
    codes: &[ProductCode],
    whole: bool,
    text: &mut String,
) -> Result<(), AllocError>
    ensures { OnOk result (string_bytes text.new ≡ string_bytes text.old ++ flat_map (answers.about shard.now whole) codes.now) }
{
    for code in codes {
        let told = about(alloc, shard, code, whole)?;
        text.push_str(&told)?;
    }
    Ok(())
}

fn about(
    alloc: Global,
    shard: &Shard<Global>,
    code: &ProductCode,
    whole: bool,
) -> Result<String, AllocError>
    ensures { IfOk result (λ text. string_bytes text ≡ answers.about shard.now whole code.now) }
{
    if whole {
        report(alloc, shard, code)
    } else {
        product_line(alloc, shard, code)
    }
}

/// The lines with the number of lines, their number in each version, and the first line that repeats a question, if any.
fn counts_text(alloc: Global, importer: &Importer<Shard<Global>>) -> Result<String, AllocError>
    ensures { IfOk result (λ text. string_bytes text ≡ answers.counts_text importer.now) }
{
    counts_with(alloc, importer, repeated_line(importer.shard()))
}

/// The same with the number of the first line that repeats a question.
fn counts_with(
    alloc: Global,
    importer: &Importer<Shard<Global>>,
    repeated: Option<usize>,
) -> Result<String, AllocError>
    ensures { IfOk result (λ text. string_bytes text ≡ answers.counts_with importer.now repeated) }
{
    let shard = importer.shard();
    let (lines, older) = (shard.len(), importer.older());
    let tagged = tagged_of(shard);
    let newer = importer.newer().saturating_sub(tagged);
    let third = number_line(alloc, "VERSION 3 ", (tagged > 0).then_some(tagged))?;
    let repeated = number_line(alloc, "REPEATED ", repeated)?;
    format!(in alloc; "LAWFUL {lines}\nVERSION 1 {older}\nVERSION 2 {newer}\n{third}{repeated}")
}

/// A line with this text and a number, if there is one.
fn number_line(alloc: Global, front: &str, number: Option<usize>) -> Result<String, AllocError>
    ensures { IfOk result (λ text. string_bytes text ≡ answers.number_line front.now number) }
{
    match number {
        Some(number) => format!(in alloc; "{front}{number}\n"),
        None => Ok(String::new(alloc)),
    }
}

/// The number of the line of the first entry whose question was asked before with its tag, if there is one.
#[tactic(auto, using(crate::proofs::AnswerLemmas::first_is, crate::proofs::AnswerLemmas::first_within))]
fn repeated_line(shard: &Shard<Global>) -> Option<usize>
    ensures { result ≡ answers.repeated_line shard.now }
{
    let _entries = shard.len();
    let place = shard.first_repeated()?;
    let line = place + 1;
    Some(line)
}

/// How many entries have a tag.
fn tagged_of(shard: &Shard<Global>) -> usize
    ensures { result ≡ answers.tagged_of shard.now }
{
    let mut count = 0;
    for place in 0..shard.len() {
        if shard.entry_at(place).unwrap().put.tag.is_some() {
            count += 1;
        }
    }
    count
}

/// The product codes that the entries name, in order of first appearance.
pub(crate) fn codes_named(
    alloc: Global,
    shard: &Shard<Global>,
) -> Result<IndexSet<ProductCode, HashKey>, AllocError>
    ensures { IfOk result (λ codes. codes.keys ≡ answers.codes_named shard.now) }
{
    let mut codes = IndexSet::with_hasher(alloc, shard.tables().key());
    for place in 0..shard.len() {
        match codes.insert(shard.entry_at(place).unwrap().put.question.code()) {
            Ok(_) => {}
            Err(_) => return Err(AllocError),
        }
    }
    Ok(codes)
}

/// Writes the reports of all product codes that the entries name, as rows of CSV.
fn report_rows<W: Sink>(
    alloc: Global,
    shard: &Shard<Global>,
    sink: &mut W,
) -> Result<(), AnswerFault>
    ensures { OnOk result (Delivers (W.taken sink.old) (W.taken sink.new) (answers.report_rows_text shard.now)) }
{
    let codes = codes_named(alloc, shard)?;
    write_report_rows(alloc, shard, codes.as_slice(), sink)
}

/// Writes a page for a browser, with all product codes that the entries name.
fn page<W: Sink>(
    alloc: Global,
    importer: &Importer<Shard<Global>>,
    heading: &str,
    sink: &mut W,
) -> Result<(), AnswerFault>
    ensures { OnOk result (answers.Shows heading.now importer.now (W.taken sink.old) (W.taken sink.new)) }
{
    let shard = importer.shard();
    let head = head_text(alloc, importer, heading)?;
    let codes = codes_named(alloc, shard)?;
    write_page(alloc, shard, &head, codes.as_slice(), sink)
}

/// The head of a page: a heading, the period of the trail, and the counts.
fn head_text(
    alloc: Global,
    importer: &Importer<Shard<Global>>,
    heading: &str,
) -> Result<String, AllocError>
    ensures { IfOk result (λ text. answers.IsHead heading.now importer.now (string_bytes text)) }
{
    let period = period_line(alloc, importer.shard())?;
    let counts = counts_text(alloc, importer)?;
    format!(in alloc; "{heading}{period}{counts}")
}

fn audit(alloc: Global, shard: &Shard<Global>, pack: &Pack) -> Result<String, AllocError>
    ensures { IfOk result (λ text. string_bytes text ≡ answers.audit_text shard.now pack.now) }
{
    let entries = shard.entries_of(pack)?;
    reply_text(alloc, &Reply::Shown(entries.len() as u64), &entries)
}
