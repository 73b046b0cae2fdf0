//! The lines that a bulk of questions means.
ghost use Rattle.std.specs.Prelude.{◌≡◌, ◌≢◌, ◌≤◌, ◌++◌, Ok, Err, Some, None, IfOk, IfErr, OnOk, map, option_map, string_bytes};
ghost use Rattle.nmvs_words.specs.Words.{spaced};
ghost use Rattle.std.specs.Option.{option_copied};
ghost use Rattle.json.specs.Value.{value_view};
ghost use Rattle.nmvs_json.specs.Bulks as specs;

use crate::question::{count_of, object_in, push_fields, push_key, text_of, wrong_member};
use crate::{AskedKind, BulkSubjects, Member, QuestionFault, Refusal, Subject};
use json::{Scratch, Value};
use std::alloc::Global;

/// The most questions of a bulk (own).
const MOST_QUESTIONS: usize = 500;

/// The lines of a bulk of questions, each with its LF, and the subject of each question.
#[derive(Drop)]
pub struct BulkLines {
    pub subjects: BulkSubjects,
    pub lines: String,
}

/// The lines of a bulk, by its body of JSON: one line for each of its questions, in order.
///
/// # Errors
///
/// The refusal for the first fault that holds. `Memory`: there is no memory.
#[tactic(auto, unfolding(crate::specs::Bulks::bulk_lines))]
pub fn bulk_lines(alloc: Global, body: &[u8]) -> Result<BulkLines, Refusal>
    ensures lines { IfOk result (λ bulk. specs.bulk_lines body.now ≡ Ok (bulk.subjects, string_bytes bulk.lines)) }
    ensures refusal { IfErr result (λ refusal. refusal.fault ≢ QuestionFault.Memory → specs.bulk_lines body.now ≡ Err refusal) }
{
    let mut scratch = Scratch::new(alloc);
    let object = object_in(alloc, body, &mut scratch)?;
    match items_in(&object) {
        Some(items) => lines_of(alloc, items),
        None => Err(Refusal {
            fault: QuestionFault::Fields,
            item: None,
            member: Some(Member::Questions),
        }),
    }
}

/// The items of a bulk.
fn items_in<'v, 't>(object: &'v Value<'t>) -> Option<&'v [Value<'t>]>
    ensures { option_map (λ items. map (λ v. value_view v) items.now) result ≡ specs.items_in (value_view object.now) }
{
    if count_of(object) != 1 {
        return None;
    }
    let items = values_of(object.get("questions")?)?;
    if items.is_empty() || items.len() > MOST_QUESTIONS {
        return None;
    }
    Some(items)
}

/// The values in an array.
fn values_of<'v, 't>(value: &'v Value<'t>) -> Option<&'v [Value<'t>]>
    ensures { option_map (λ values. map (λ v. value_view v) values.now) result ≡ specs.as_values (value_view value.now) }
{
    match value {
        Value::Array(values) => Some(values.as_slice()),
        _ => None,
    }
}

/// The lines of items, and the subject of each.
fn lines_of(alloc: Global, items: &[Value<'_>]) -> Result<BulkLines, Refusal>
    ensures lines { IfOk result (λ bulk. specs.item_lines 0 (map (λ v. value_view v) items.now) ≡ Ok (string_bytes bulk.lines)) }
    ensures subjects { IfOk result (λ bulk. bulk.subjects ≡ map specs.item_subject (map (λ v. value_view v) items.now)) }
    ensures refusal { IfErr result (λ refusal. refusal.fault ≢ QuestionFault.Memory → specs.item_lines 0 (map (λ v. value_view v) items.now) ≡ Err refusal) }
{
    let mut lines = String::new(alloc);
    let mut subjects = BulkSubjects::with_capacity(alloc, items.len())?;
    let mut number: usize = 0;
    let mut rest = items;
    while let [item, later @ ..] = rest {
        let subject = match push_item(&mut lines, item) {
            Ok(subject) => subject,
            Err(fault) => return Err(refused(number, item, fault)),
        };
        subjects.push(subject.code, subject.scanned)?;
        number += 1;
        rest = later;
    }
    Ok(BulkLines { subjects, lines })
}

/// The refusal of the item of this number, which has this fault.
fn refused(number: usize, item: &Value<'_>, fault: QuestionFault) -> Refusal
    ensures { result ≡ record { fault = fault; item = Some number; member = specs.wrong_in fault (value_view item.now) } }
{
    Refusal {
        fault,
        item: Some(number),
        member: wrong_in(item, fault),
    }
}

/// The first wrong member of an item with this fault.
fn wrong_in(item: &Value<'_>, fault: QuestionFault) -> Option<Member>
    ensures { result ≡ specs.wrong_in fault (value_view item.now) }
{
    if let QuestionFault::Key = fault {
        return Some(Member::Key);
    }
    match item_kind(item) {
        Some(kind) => wrong_member(kind, item),
        None => Some(Member::Ask),
    }
}

/// Appends the line of an item. Returns its subject.
#[tactic(auto, unfolding(crate::specs::Bulks::item_line))]
fn push_item(lines: &mut String, item: &Value<'_>) -> Result<Subject, QuestionFault>
    ensures line { OnOk result (specs.appended (string_bytes lines.old) (specs.item_line (value_view item.now)) ≡ Ok (string_bytes lines.new)) }
    ensures subject { IfOk result (λ subject. subject ≡ specs.item_subject (value_view item.now)) }
    ensures fault { IfErr result (λ fault. fault ≢ QuestionFault.Memory → specs.item_line (value_view item.now) ≡ Err fault) }
{
    let key = key_of(item)?;
    push_key(lines, key)?;
    push_question(lines, others_of(key), item)
}

/// The key of an item, if it has one.
fn key_of<'v>(item: &'v Value<'_>) -> Result<Option<&'v [u8]>, QuestionFault>
    ensures key { IfOk result (λ key. specs.item_key (value_view item.now) ≡ Some (option_copied key)) }
    ensures fault { IfErr result (λ fault. (fault ≡ QuestionFault.Key) × (specs.item_key (value_view item.now) ≡ None)) }
{
    match item.get("key") {
        None => Ok(None),
        Some(member) => match member.as_str() {
            Some(key) => Ok(Some(key.as_bytes())),
            None => Err(QuestionFault::Key),
        },
    }
}

/// The number of members of an item beyond those that name a pack, a batch or a product.
fn others_of(key: Option<&[u8]>) -> usize
    ensures others { result ≡ specs.others_of (option_copied key.entry) }
    ensures small { result ≤ 3 }
{
    match key {
        None => 2,
        Some(_) => 3,
    }
}

/// Appends the fields of the line of an item, and returns its subject. The item has this number of other members. They
/// are neither those that name a pack, a batch or a product, nor those of the scanned values and the condition.
#[tactic(auto, unfolding(crate::specs::Bulks::item_subject))]
fn push_question(
    lines: &mut String,
    others: usize,
    item: &Value<'_>,
) -> Result<Subject, QuestionFault>
    requires { others ≤ 3 }
    ensures fields { OnOk result (option_map (λ fields. string_bytes lines.old ++ spaced fields) (specs.item_fields others (value_view item.now)) ≡ Some (string_bytes lines.new)) }
    ensures subject { IfOk result (λ subject. subject ≡ specs.item_subject (value_view item.now)) }
    ensures fault { IfErr result (λ fault. fault ≢ QuestionFault.Memory → (fault ≡ QuestionFault.Fields) × (specs.item_fields others (value_view item.now) ≡ None)) }
{
    let kind = item_kind(item).ok_or(QuestionFault::Fields)?;
    push_fields(lines, kind, others, item)
}

/// The kind that an item asks.
fn item_kind(item: &Value<'_>) -> Option<AskedKind>
    ensures { result ≡ specs.item_kind (value_view item.now) }
{
    let kind = AskedKind::named(text_of(item, "ask")?.as_bytes())?;
    if kind.has_list() { None } else { Some(kind) }
}
