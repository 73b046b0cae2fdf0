//! The line that a question of JSON means.
ghost use Rattle.std.specs.Prelude.{◌≡◌, ◌≢◌, ◌≤◌, ◌++◌, ◌∷◌, [], codes, true, false, Ok, Err, Some, None, IfOk, IfErr, OnOk, IfSome, IfNone, find, map, option_and_then, option_map, string_bytes};
ghost use Rattle.std.specs.Char.{is_ascii_graphic};
ghost use Rattle.std.specs.List.{list_all};
ghost use Rattle.std.specs.Option.{is_none, is_some, option_copied};
ghost use Rattle.json.specs.Find.{get};
ghost use Rattle.json.specs.Value.{value_view};
ghost use Rattle.nmvs_identifier.specs.Batch.{is_batch};
ghost use Rattle.nmvs_identifier.specs.Expiry.{is_expiry};
ghost use Rattle.nmvs_identifier.specs.Tag.{is_tag};
ghost use Rattle.nmvs_words.specs.Words.{spaced};
ghost use Rattle.nmvs_json.specs.Scans as scans;
ghost use Rattle.nmvs_json.specs.Questions as specs;
ghost use Rattle.nmvs_json.specs.Refusals.{member_name};

use crate::{AskedKind, Member, QuestionFault, Refusal, Scanned, Subject};
use json::{Error, Scratch, Value};
use nmvs_elements::{Elements, ScanFault, read_scan};
use nmvs_identifier::{Batch, Expiry, ProductCode, Tag};
use nmvs_rules::Printed;
use std::alloc::{AllocError, Global};

/// The text of the line in place of each value of a scan that cannot be read (own). It is no product code.
const UNREAD: &str = "-";

/// The members that say the values printed on a pack.
const PRINTED: &[Member] = &[Member::Batch, Member::Expiry];

/// The line of a question, with its LF, and the subject of the question.
#[derive(Drop)]
pub struct QuestionLine {
    pub subject: Subject,
    pub line: String,
}

/// The line of a question and its subject, by its kind, its key if there is one, and its body of JSON.
///
/// # Errors
///
/// The refusal for the first fault that holds. `Memory`: there is no memory.
#[tactic(auto, unfolding(crate::specs::Questions::question_line))]
pub fn question_line(
    alloc: Global,
    kind: AskedKind,
    key: Option<&[u8]>,
    body: &[u8],
) -> Result<QuestionLine, Refusal>
    ensures line { IfOk result (λ question. specs.question_line kind (option_copied key.entry) body.now ≡ Ok (question.subject, string_bytes question.line)) }
    ensures refusal { IfErr result (λ refusal. refusal.fault ≢ QuestionFault.Memory → specs.question_line kind (option_copied key.entry) body.now ≡ Err refusal) }
{
    let mut line = String::new(alloc);
    push_key(&mut line, key)?;
    let mut scratch = Scratch::new(alloc);
    let object = object_in(alloc, body, &mut scratch)?;
    match push_fields(&mut line, kind, 1, &object) {
        Ok(subject) => Ok(QuestionLine { subject, line }),
        Err(fault) => Err(Refusal {
            fault,
            item: None,
            member: wrong_member(kind, &object),
        }),
    }
}

/// Appends the tag that a key is, as it stands before a line, or nothing without a key.
pub(crate) fn push_key(line: &mut String, key: Option<&[u8]>) -> Result<(), QuestionFault>
    ensures text { OnOk result (string_bytes line.new ≡ string_bytes line.old ++ specs.key_text (option_copied key.entry)) }
    ensures key { OnOk result (specs.is_key (option_copied key.entry) ≡ true) }
    ensures fault { IfErr result (λ fault. fault ≢ QuestionFault.Memory → (fault ≡ QuestionFault.Key) × (specs.is_key (option_copied key.entry) ≡ false)) }
{
    let Some(key) = key else {
        return Ok(());
    };
    let tag = tag_of(key).ok_or(QuestionFault::Key)?;
    line.push_str("#")?;
    line.push_str(tag.text())?;
    line.push_str(" ")?;
    Ok(())
}

/// The tag that a key is.
fn tag_of(key: &[u8]) -> Option<Tag>
    ensures some { IfSome result (λ tag. (tag.bytes ≡ key.now) × (is_tag key.now ≡ true)) }
    ensures none { IfNone result (is_tag key.now ≡ false) }
{
    match str::from_utf8(key) {
        Ok(key) => Tag::read(key),
        Err(_) => None,
    }
}

/// The object that a body is.
pub(crate) fn object_in<'t>(
    alloc: Global,
    body: &'t [u8],
    scratch: &'t mut Scratch,
) -> Result<Value<'t>, QuestionFault>
    ensures object { IfOk result (λ v. specs.object_in body.now ≡ Some (value_view v)) }
    ensures fault { IfErr result (λ fault. fault ≢ QuestionFault.Memory → (fault ≡ QuestionFault.Json) × (specs.object_in body.now ≡ None)) }
{
    let Ok(text) = str::from_utf8(body) else {
        return Err(QuestionFault::Json);
    };
    let value = value_in(alloc, text, scratch)?;
    match value {
        Value::Object(_) => Ok(value),
        _ => Err(QuestionFault::Json),
    }
}

/// The JSON value that a text is, in which no object has a member twice.
fn value_in<'t>(
    alloc: Global,
    text: &'t str,
    scratch: &'t mut Scratch,
) -> Result<Value<'t>, QuestionFault>
    ensures value { IfOk result (λ v. specs.value_in text.now ≡ Some (value_view v)) }
    ensures fault { IfErr result (λ fault. fault ≢ QuestionFault.Memory → (fault ≡ QuestionFault.Json) × (specs.value_in text.now ≡ None)) }
{
    match Value::parse_strict(alloc, text, scratch) {
        Ok(value) => Ok(value),
        Err(Error::Invalid) => Err(QuestionFault::Json),
        Err(Error::DuplicateKey) => Err(QuestionFault::Json),
        Err(Error::OutOfMemory | Error::TooLong) => Err(QuestionFault::Memory),
    }
}

/// Appends the fields of the line that an object means, and LF. Returns the subject. The object has this number of
/// other members. They are neither those that name a pack, a batch or a product, nor those of the scanned values and
/// the condition.
#[tactic(auto, unfolding(crate::specs::Questions::fields_of))]
pub(crate) fn push_fields(
    line: &mut String,
    kind: AskedKind,
    others: usize,
    object: &Value<'_>,
) -> Result<Subject, QuestionFault>
    requires { others ≤ 3 }
    ensures fields { OnOk result (option_map (λ fields. string_bytes line.old ++ spaced fields) (specs.fields_of others kind (value_view object.now)) ≡ Some (string_bytes line.new)) }
    ensures subject { IfOk result (λ subject. subject ≡ specs.subject_in kind (value_view object.now)) }
    ensures fault { IfErr result (λ fault. fault ≢ QuestionFault.Memory → (fault ≡ QuestionFault.Fields) × (specs.fields_of others kind (value_view object.now) ≡ None)) }
{
    if count_of(object) != others + subject_count(kind, object) {
        return Err(QuestionFault::Fields);
    }
    let user = user_of(object).ok_or(QuestionFault::Fields)?;
    line.push_str(user)?;
    line.push_str(" ")?;
    line.push_str(kind.word())?;
    let subject = push_subject(line, kind, object)?;
    line.push_str("\n")?;
    Ok(subject)
}

/// The number of members that say the texts after the word of a line.
#[tactic(auto, unfolding(crate::specs::Questions::subject_count))]
fn subject_count(kind: AskedKind, object: &Value<'_>) -> usize
    ensures count { result ≡ specs.subject_count kind (value_view object.now) }
    ensures small { result ≤ 6 }
{
    let scanned = usize::from(has_scanned(kind, object));
    name_count(kind, object) + scanned + usize::from(has_condition(kind, object))
}

/// The number of members that name the pack, the batch or the product.
fn name_count(kind: AskedKind, object: &Value<'_>) -> usize
    ensures count { result ≡ specs.name_count kind (value_view object.now) }
    ensures small { result ≤ 4 }
{
    if has_scan(kind, object) {
        1
    } else {
        kind.members().len()
    }
}

/// Whether a question is put only if the values printed on the pack are those of its upload.
fn has_condition(kind: AskedKind, object: &Value<'_>) -> bool
    ensures { result ≡ specs.has_condition kind (value_view object.now) }
{
    (has_scan(kind, object) || has_scanned(kind, object)) && object.get("if_scanned").is_some()
}

/// Whether the values printed on a pack stand in the member `scanned`, as they may in a question about a pack without a scan.
fn has_scanned(kind: AskedKind, object: &Value<'_>) -> bool
    ensures { result ≡ specs.has_scanned kind (value_view object.now) }
{
    kind.is_of_pack() && !has_scan(kind, object) && object.get("scanned").is_some()
}

/// Whether a scan stands in place of a code and a serial, as it may in a question about a pack.
fn has_scan(kind: AskedKind, object: &Value<'_>) -> bool
    ensures { result ≡ specs.has_scan kind (value_view object.now) }
{
    kind.is_of_pack() && object.get("scan").is_some()
}

/// Appends the texts after the word of a line, with a space before each. Returns the subject.
#[tactic(auto, unfolding(crate::specs::Questions::subject_of, crate::specs::Questions::subject_in))]
fn push_subject(
    line: &mut String,
    kind: AskedKind,
    object: &Value<'_>,
) -> Result<Subject, QuestionFault>
    ensures texts { OnOk result (option_map (λ texts. string_bytes line.old ++ specs.preceded texts) (specs.subject_of kind (value_view object.now)) ≡ Some (string_bytes line.new)) }
    ensures subject { IfOk result (λ subject. subject ≡ specs.subject_in kind (value_view object.now)) }
    ensures fault { IfErr result (λ fault. fault ≢ QuestionFault.Memory → (fault ≡ QuestionFault.Fields) × (specs.subject_of kind (value_view object.now) ≡ None)) }
{
    let named = push_names(line, kind, object)?;
    let scanned = scanned_of(kind, object, named.scanned)?;
    push_condition(line, kind, object, &scanned)?;
    Ok(Subject {
        code: named.code,
        scanned,
    })
}

/// Appends the texts of the pack, the batch or the product that an object names, with a space before each. Returns the code, and
/// the printed values of a scan or its fault.
fn push_names(
    line: &mut String,
    kind: AskedKind,
    object: &Value<'_>,
) -> Result<Subject, QuestionFault>
    ensures texts { OnOk result (option_map (λ texts. string_bytes line.old ++ specs.preceded texts) (specs.name_texts kind (value_view object.now)) ≡ Some (string_bytes line.new)) }
    ensures code { IfOk result (λ named. named.code ≡ specs.named_code kind (value_view object.now)) }
    ensures values { IfOk result (λ named. named.scanned ≡ specs.scan_values kind (value_view object.now)) }
    ensures fault { IfErr result (λ fault. fault ≢ QuestionFault.Memory → (fault ≡ QuestionFault.Fields) × (specs.name_texts kind (value_view object.now) ≡ None)) }
{
    if has_scan(kind, object) {
        return push_scan(line, object);
    }
    push_texts(line, kind.members(), object)?;
    Ok(Subject {
        code: code_in(object),
        scanned: None,
    })
}

/// Appends the code and the serial that the scan of an object carries, with a space before each. Returns its code, and its
/// printed values or its fault.
fn push_scan(line: &mut String, object: &Value<'_>) -> Result<Subject, QuestionFault>
    ensures texts { OnOk result (option_map (λ scan. string_bytes line.old ++ specs.preceded (specs.pack_texts (scans.scan_in scan))) (specs.string_of (codes "scan") (value_view object.now)) ≡ Some (string_bytes line.new)) }
    ensures code { IfOk result (λ named. named.code ≡ option_and_then (λ scan. specs.scan_code (scans.scan_in scan)) (specs.string_of (codes "scan") (value_view object.now))) }
    ensures values { IfOk result (λ named. named.scanned ≡ option_map (λ scan. specs.scan_printed (scans.scan_in scan)) (specs.string_of (codes "scan") (value_view object.now))) }
    ensures fault { IfErr result (λ fault. fault ≢ QuestionFault.Memory → (fault ≡ QuestionFault.Fields) × (specs.string_of (codes "scan") (value_view object.now) ≡ None)) }
{
    let scan = string_of(object, "scan").ok_or(QuestionFault::Fields)?;
    let pack = scan_in(scan.as_bytes());
    push_pack(line, &pack)?;
    Ok(Subject {
        code: code_on(&pack),
        scanned: Some(printed_on(&pack)),
    })
}

/// The product code of a scanned pack.
fn code_on(pack: &Result<Elements, ScanFault>) -> Option<ProductCode>
    ensures { result ≡ specs.scan_code pack.now }
{
    match pack {
        Ok(pack) => Some(pack.code),
        Err(_) => None,
    }
}

/// The product code in an object.
fn code_in(object: &Value<'_>) -> Option<ProductCode>
    ensures { result ≡ specs.code_in (value_view object.now) }
{
    let text = string_of(object, "code")?;
    match ProductCode::read(text) {
        Ok(code) => Some(code),
        Err(_) => None,
    }
}

/// The pack that a scan without a national number carries, or its fault.
fn scan_in(scan: &[u8]) -> Result<Elements, ScanFault>
    ensures { result ≡ scans.scan_in scan.now }
{
    read_scan(scan, None)
}

/// Appends the code and the serial of a scanned pack, with a space before each; `-` is in their places without a pack.
fn push_pack(line: &mut String, pack: &Result<Elements, ScanFault>) -> Result<(), AllocError>
    ensures { OnOk result (string_bytes line.new ≡ string_bytes line.old ++ specs.preceded (specs.pack_texts pack.now)) }
{
    match pack {
        Ok(pack) => push_both(line, pack.code.text(), pack.serial.text()),
        Err(_) => push_both(line, UNREAD, UNREAD),
    }
}

/// The values that are printed on a scanned pack, or the fault of the scan.
fn printed_on(pack: &Result<Elements, ScanFault>) -> Scanned
    ensures { result ≡ specs.scan_printed pack.now }
{
    match pack {
        Ok(pack) => Ok(Printed {
            batch: pack.batch,
            expiry: pack.expiry,
        }),
        Err(fault) => Err(*fault),
    }
}

/// The scanned values of a question whose scan has these, or this fault.
#[tactic(auto, unfolding(crate::specs::Questions::scanned_of))]
fn scanned_of(
    kind: AskedKind,
    object: &Value<'_>,
    read: Option<Scanned>,
) -> Result<Option<Scanned>, QuestionFault>
    requires { read ≡ specs.scan_values kind (value_view object.now) }
    ensures scanned { IfOk result (λ scanned. specs.scanned_of kind (value_view object.now) ≡ Some scanned) }
    ensures fault { IfErr result (λ fault. (fault ≡ QuestionFault.Fields) × (specs.scanned_of kind (value_view object.now) ≡ None)) }
{
    if !has_scanned(kind, object) {
        return Ok(read);
    }
    match object.get("scanned") {
        Some(scanned) => values_in(scanned),
        None => Err(QuestionFault::Fields),
    }
}

/// The printed values of an object that has texts for them: none if one of them is misread.
fn values_in(scanned: &Value<'_>) -> Result<Option<Scanned>, QuestionFault>
    ensures values { IfOk result (λ values. specs.values_in (value_view scanned.now) ≡ Some values) }
    ensures fault { IfErr result (λ fault. (fault ≡ QuestionFault.Fields) × (specs.values_in (value_view scanned.now) ≡ None)) }
{
    if has_said(scanned) {
        Ok(printed_in(scanned))
    } else {
        Err(QuestionFault::Fields)
    }
}

/// Whether an object has a batch and an expiry date as texts, and nothing else.
fn has_said(scanned: &Value<'_>) -> bool
    ensures { result ≡ is_some (specs.said_in (value_view scanned.now)) }
{
    count_of(scanned) == 2
        && text_of(scanned, "batch").is_some()
        && text_of(scanned, "expiry").is_some()
}

/// The printed values in an object.
#[tactic(auto, unfolding(crate::specs::Questions::printed_in))]
fn printed_in(scanned: &Value<'_>) -> Option<Scanned>
    ensures { result ≡ specs.printed_in (value_view scanned.now) }
{
    if count_of(scanned) != 2 {
        return None;
    }
    let batch = batch_of(scanned)?;
    let expiry = expiry_of(scanned)?;
    Some(Ok(Printed { batch, expiry }))
}

/// The batch number in an object.
fn batch_of(object: &Value<'_>) -> Option<Batch>
    ensures { option_map (λ batch. batch.bytes) result ≡ specs.within is_batch (specs.string_of (codes "batch") (value_view object.now)) }
{
    let text = string_of(object, "batch")?;
    match Batch::read(text) {
        Ok(batch) => Some(batch),
        Err(_) => None,
    }
}

/// The expiry date in an object.
fn expiry_of(object: &Value<'_>) -> Option<Expiry>
    ensures { option_map (λ expiry. expiry.bytes) result ≡ specs.within is_expiry (specs.string_of (codes "expiry") (value_view object.now)) }
{
    let text = string_of(object, "expiry")?;
    match Expiry::read(text) {
        Ok(expiry) => Some(expiry),
        Err(_) => None,
    }
}

/// Appends the condition of a question with these scanned values, with a space before each text, or nothing without a condition.
/// Misread texts make one, so that the line has their fault.
#[tactic(auto, unfolding(crate::specs::Questions::condition_texts))]
fn push_condition(
    line: &mut String,
    kind: AskedKind,
    object: &Value<'_>,
    scanned: &Option<Scanned>,
) -> Result<(), QuestionFault>
    ensures texts { OnOk result (option_map (λ texts. string_bytes line.old ++ specs.preceded texts) (specs.condition_texts kind (value_view object.now) scanned.now) ≡ Some (string_bytes line.new)) }
    ensures fault { IfErr result (λ fault. fault ≢ QuestionFault.Memory → (fault ≡ QuestionFault.Fields) × (specs.condition_texts kind (value_view object.now) scanned.now ≡ None)) }
{
    if has_condition(kind, object) && !is_matching(object) {
        return Err(QuestionFault::Fields);
    }
    if !has_condition(kind, object) && !is_misread(kind, object, scanned) {
        return Ok(());
    }
    line.push_str(" IF")?;
    push_shown(line, kind, object, scanned)?;
    Ok(())
}

/// Whether a text of the member `scanned` is misread.
fn is_misread(kind: AskedKind, object: &Value<'_>, scanned: &Option<Scanned>) -> bool
    ensures { result ≡ specs.is_misread kind (value_view object.now) scanned.now }
{
    has_scanned(kind, object) && scanned.is_none()
}

/// Appends the texts after `IF`, with a space before each: those of the member `scanned` as they are, or those of a scan.
fn push_shown(
    line: &mut String,
    kind: AskedKind,
    object: &Value<'_>,
    scanned: &Option<Scanned>,
) -> Result<(), QuestionFault>
    ensures texts { OnOk result (option_map (λ texts. string_bytes line.old ++ specs.preceded texts) (specs.shown_texts kind (value_view object.now) scanned.now) ≡ Some (string_bytes line.new)) }
    ensures fault { IfErr result (λ fault. fault ≢ QuestionFault.Memory → (fault ≡ QuestionFault.Fields) × (specs.shown_texts kind (value_view object.now) scanned.now ≡ None)) }
{
    if has_scanned(kind, object) {
        return push_said(line, object);
    }
    push_printed(line, scanned)?;
    Ok(())
}

/// Appends the texts of the member `scanned`, with a space before each.
fn push_said(line: &mut String, object: &Value<'_>) -> Result<(), QuestionFault>
    ensures texts { OnOk result (option_map (λ texts. string_bytes line.old ++ specs.preceded texts) (specs.said_of (value_view object.now)) ≡ Some (string_bytes line.new)) }
    ensures fault { IfErr result (λ fault. fault ≢ QuestionFault.Memory → (fault ≡ QuestionFault.Fields) × (specs.said_of (value_view object.now) ≡ None)) }
{
    match object.get("scanned") {
        Some(scanned) if count_of(scanned) == 2 => push_texts(line, PRINTED, scanned),
        _ => Err(QuestionFault::Fields),
    }
}

/// Whether the condition of a question is that the printed values match.
fn is_matching(object: &Value<'_>) -> bool
    ensures { result ≡ specs.is_matching (specs.string_of (codes "if_scanned") (value_view object.now)) }
{
    match string_of(object, "if_scanned") {
        Some(text) => text == "matches",
        None => false,
    }
}

/// Appends the texts of the values of a scan, with a space before each; `-` is in their places if there are none.
fn push_printed(line: &mut String, scanned: &Option<Scanned>) -> Result<(), AllocError>
    ensures { OnOk result (string_bytes line.new ≡ string_bytes line.old ++ specs.preceded (specs.printed_texts scanned.now)) }
{
    match scanned {
        Some(Ok(printed)) => {
            push_both(line, printed.batch.text(), printed.expiry.text().as_str())
        }
        _ => push_both(line, UNREAD, UNREAD),
    }
}

/// Appends two texts, with a space before each.
fn push_both(line: &mut String, first: &str, second: &str) -> Result<(), AllocError>
    ensures { OnOk result (string_bytes line.new ≡ string_bytes line.old ++ specs.preceded (first.now ∷ second.now ∷ [])) }
{
    line.push_str(" ")?;
    line.push_str(first)?;
    line.push_str(" ")?;
    line.push_str(second)
}

/// Appends the texts of these members, with a space before each.
fn push_texts(
    line: &mut String,
    members: &[Member],
    object: &Value<'_>,
) -> Result<(), QuestionFault>
    ensures texts { OnOk result (option_map (λ texts. string_bytes line.old ++ specs.preceded texts) (specs.texts_of (map member_name members.now) (value_view object.now)) ≡ Some (string_bytes line.new)) }
    ensures fault { IfErr result (λ fault. fault ≢ QuestionFault.Memory → (fault ≡ QuestionFault.Fields) × (specs.texts_of (map member_name members.now) (value_view object.now) ≡ None)) }
{
    let mut rest = members;
    while let [member, later @ ..] = rest {
        let text = text_of(object, member.name()).ok_or(QuestionFault::Fields)?;
        line.push_str(" ")?;
        line.push_str(text)?;
        rest = later;
    }
    Ok(())
}

/// The first member that is wrong in the object of a refused question. There is none if another member is too many.
#[tactic(auto, unfolding(crate::specs::Questions::wrong_member))]
pub(crate) fn wrong_member(kind: AskedKind, object: &Value<'_>) -> Option<Member>
    ensures { result ≡ specs.wrong_member kind (value_view object.now) }
{
    if user_of(object).is_none() {
        return Some(Member::User);
    }
    match wrong_name(kind, object) {
        Some(member) => Some(member),
        None => wrong_condition(kind, object),
    }
}

/// The first member that is wrong of those that name the pack, the batch or the product.
fn wrong_name(kind: AskedKind, object: &Value<'_>) -> Option<Member>
    ensures { result ≡ specs.wrong_name kind (value_view object.now) }
{
    if !has_scan(kind, object) {
        return without_text(kind.members(), object);
    }
    match string_of(object, "scan") {
        Some(_) => None,
        None => Some(Member::Scan),
    }
}

/// The first of these members that has no text.
fn without_text(members: &[Member], object: &Value<'_>) -> Option<Member>
    ensures { result ≡ find (λ member. is_none (specs.text_of (member_name member) (value_view object.now))) members.now }
{
    for member in members {
        if text_of(object, member.name()).is_none() {
            return Some(*member);
        }
    }
    None
}

/// The first member that is wrong of those that say the scanned values and the condition.
fn wrong_condition(kind: AskedKind, object: &Value<'_>) -> Option<Member>
    ensures { result ≡ specs.wrong_condition kind (value_view object.now) }
{
    if has_scanned(kind, object) && !is_said(object) {
        Some(Member::Scanned)
    } else if has_condition(kind, object) && !is_matching(object) {
        Some(Member::IfScanned)
    } else {
        None
    }
}

/// Whether the member `scanned` has its texts.
fn is_said(object: &Value<'_>) -> bool
    ensures { result ≡ is_some (specs.said_of (value_view object.now)) }
{
    match object.get("scanned") {
        Some(scanned) => has_said(scanned),
        None => false,
    }
}

/// The number of members of an object.
pub(crate) fn count_of(object: &Value<'_>) -> usize
    ensures { result ≡ specs.count_of (value_view object.now) }
{
    match object {
        Value::Object(members) => members.len(),
        _ => 0,
    }
}

/// The string that is the member of this name.
fn string_of<'v>(object: &'v Value<'_>, name: &str) -> Option<&'v str>
    ensures { option_copied result ≡ specs.string_of name.now (value_view object.now) }
{
    object.get(name)?.as_str()
}

/// The text of the member of this name.
pub(crate) fn text_of<'v>(object: &'v Value<'_>, name: &str) -> Option<&'v str>
    ensures { option_copied result ≡ specs.text_of name.now (value_view object.now) }
{
    let text = string_of(object, name)?;
    if is_field(text.as_bytes()) {
        Some(text)
    } else {
        None
    }
}

/// The text of the user. A text that begins with `#` is refused, because it reads as a tag.
fn user_of<'v>(object: &'v Value<'_>) -> Option<&'v str>
    ensures { option_copied result ≡ specs.user_of (value_view object.now) }
{
    let text = text_of(object, "user")?;
    match text.as_bytes() {
        [b'#', ..] => None,
        _ => Some(text),
    }
}

/// Whether a text can be a field of a line: one or more visible ASCII characters.
fn is_field(text: &[u8]) -> bool
    ensures { result ≡ specs.is_field text.now }
{
    !text.is_empty() && are_graphic(text)
}

fn are_graphic(text: &[u8]) -> bool
    ensures { result ≡ list_all is_ascii_graphic text.now }
{
    text.iter().all(|b| b.is_ascii_graphic())
}
