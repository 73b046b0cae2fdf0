//! The JSON of replies.
ghost use Rattle.std.specs.Prelude.{◌≡◌, ◌++◌, [], codes, drop, map, option_map, IfOk, OnOk};
ghost use Rattle.std.specs.List.{flat_map};
ghost use Rattle.std.specs.Option.{option_copied};
ghost use Rattle.nmvs_stream.specs.InputLines.{input_lines};
ghost use Rattle.nmvs_json.specs.Places.{place_of};
ghost use Rattle.nmvs_json.specs.Replies as specs;

use crate::{Scanned, Subject};
use memchr::memchr;
use nmvs_elements::ScanFault;
use nmvs_identifier::ProductCode;
use nmvs_messages::{FAULTS, Problem};
use nmvs_rules::Printed;
use nmvs_stream::cut_line;
use nmvs_words::named;
use std::alloc::{AllocError, Allocator};

/// The place of a word of a line in its object.
#[derive(Clone, Copy)]
pub(crate) enum Place {
    /// As a string of this name.
    String(&'static [u8]),
    /// As a number of this name.
    Number(&'static [u8]),
    /// Left out: the next name says the same.
    Label,
}

/// The bytes that the body of an answer has room for beyond those of its text (own). A body that needs more grows, as that of a
/// report does.
const ROOM: usize = 128;

/// The first words of lines that are read in a way of their own.
const FAULT: &[u8] = b"FAULT";

const ALERT: &[u8] = b"ALERT";

const AUTHENTIC: &[u8] = b"AUTHENTIC";

const STATUS: &[u8] = b"STATUS";

const SHOWN: &[u8] = b"SHOWN";

const PRODUCT: &[u8] = b"PRODUCT";

const BATCH: &[u8] = b"BATCH";

/// The lines of replies: the first word, and the places of the others.
const ROWS: &[(&str, &[Place])] = &[
    ("UPLOADED", &[]),
    (
        "AUTHENTIC",
        &[
            Place::String(b"batch"),
            Place::String(b"expiry"),
            Place::String(b"validity"),
        ],
    ),
    (
        "ALERT",
        &[
            Place::String(b"cause"),
            Place::String(b"flag"),
            Place::Number(b"number"),
        ],
    ),
    (
        "STATUS",
        &[
            Place::String(b"own"),
            Place::String(b"lock"),
            Place::String(b"onward"),
            Place::String(b"batch"),
            Place::String(b"expiry"),
        ],
    ),
    ("NOPACK", &[]),
    ("DECOMMISSIONED", &[]),
    ("HANDED_OVER", &[]),
    ("REVERTED", &[]),
    ("LOCKED", &[Place::Number(b"packs")]),
    ("STOLEN", &[]),
    ("SHOWN", &[Place::Number(b"number")]),
    (
        "REFUSED",
        &[Place::Number(b"number"), Place::String(b"refusal")],
    ),
    (
        "PRODUCT",
        &[
            Place::String(b"code"),
            Place::Label,
            Place::String(b"holder"),
            Place::Label,
            Place::Number(b"alerts"),
            Place::Label,
            Place::Number(b"flagged"),
        ],
    ),
];

/// The texts of faults, for a person (own).
const DETAILS: &[(&str, &str)] = &[
    (
        "LONG",
        "The line of the question has over 200 bytes. Shorten its values.",
    ),
    (
        "USER",
        "The user is no name. Send the name that is enrolled.",
    ),
    (
        "CODE",
        "The code is no product code, or the scan cannot be read. Scan again, or type the print.",
    ),
    (
        "SERIAL",
        "The serial is no serial number. Scan again, or type the print.",
    ),
    (
        "BATCH",
        "The batch is no batch number. Scan again, or type the print.",
    ),
    (
        "EXPIRY",
        "The expiry is no date of the form YYMMDD. Scan again, or type the print.",
    ),
    (
        "TAG",
        "The key is that of another question. Ask with a new key.",
    ),
    (
        "NOBODY",
        "The user is not enrolled, or the certificate names somebody else.",
    ),
    (
        "SUSPENDED",
        "The user is suspended, or its last day is over.",
    ),
    ("ROLE", "The role of the user gets no report."),
    (
        "PRODUCT",
        "The authorisation of the user may not upload this code.",
    ),
    (
        "CHANGED",
        "The key was answered before, and the state of the pack has changed. Ask with a new key.",
    ),
    (
        "DIFFERS",
        "The pack was uploaded with another batch or expiry date. Compare the scan with the print.",
    ),
    (
        "RATE",
        "The user is over the rate. Ask again after a second.",
    ),
    (
        "CLOCK",
        "The clock of the server gives no moment. Ask again.",
    ),
    (
        "CLOSED",
        "The server cannot read the list of users. Ask again.",
    ),
    (
        "MEMORY",
        "The server has no memory for the question. Ask again.",
    ),
    (
        "JOURNAL",
        "The log may not have the question. Ask again with the same key.",
    ),
    (
        "ENDED",
        "The session ended before the reply. Ask again with the same key.",
    ),
];

/// The problem of a session's answer to one question, if it is no reply, and the body of the response. The body names an
/// alert, and compares the question's scanned values with those of a reply that says a batch number and an expiry date.
///
/// # Errors
///
/// There is no memory for the body.
#[tactic(auto, unfolding(crate::specs::Replies::body_text, crate::specs::Replies::problem_of))]
pub fn response_of<A: Allocator>(
    alloc: A,
    subject: &Subject,
    text: &[u8],
) -> Result<(Option<Problem>, Vec<u8, A>), AllocError>
    ensures problem { IfOk result (λ response. response.0 ≡ specs.problem_of text.now) }
    ensures body { IfOk result (λ response. response.1.items ≡ specs.body_text subject.now text.now) }
{
    let mut body = Vec::with_capacity(alloc, text.len() + ROOM)?;
    let (line, later) = first_line(text);
    let problem = push_answer(&mut body, subject, line, later)?;
    Ok((problem, body))
}

/// Whether one of the answers to a bulk is a problem that passes, and the body of the response. Each answer is a line
/// of a session's text, and has a body by the subject of its question.
///
/// # Errors
///
/// There is no memory for it.
#[tactic(auto, unfolding(crate::specs::Replies::bulk_text))]
pub fn bulk_body<A: Allocator>(
    alloc: A,
    subjects: &[Subject],
    text: &[u8],
) -> Result<(bool, Vec<u8, A>), AllocError>
    ensures passing { IfOk result (λ response. response.0 ≡ specs.has_passing subjects.now (input_lines text.now)) }
    ensures body { IfOk result (λ response. response.1.items ≡ specs.bulk_text subjects.now text.now) }
{
    let room = subjects
        .len()
        .saturating_mul(ROOM)
        .saturating_add(text.len());
    let mut body = Vec::with_capacity(alloc, room)?;
    body.extend_from_slice(b"{\"replies\":[")?;
    let passing = push_answers(&mut body, subjects, text)?;
    body.extend_from_slice(b"]}\n")?;
    Ok((passing, body))
}

/// Puts the bodies of answers at the end of a body, by the subject of each question, with a comma between each two.
/// Returns whether one of them is a problem that passes.
fn push_answers<A: Allocator>(
    body: &mut Vec<u8, A>,
    subjects: &[Subject],
    text: &[u8],
) -> Result<bool, AllocError>
    ensures passing { IfOk result (λ passing. passing ≡ specs.has_passing subjects.now (input_lines text.now)) }
    ensures body { OnOk result (body.new.items ≡ body.old.items ++ specs.separated [] (specs.bodies subjects.now (input_lines text.now))) }
{
    let mut passing = false;
    let mut comma: &[u8] = b"";
    let mut rest = text;
    let mut left = subjects;
    while let Some((subject, others)) = left.split_first() {
        let (line, later) = first_line(rest);
        body.extend_from_slice(comma)?;
        let problem = push_answer(body, subject, line, b"")?;
        passing = passing || passes(problem);
        comma = b",";
        rest = later;
        left = others;
    }
    Ok(passing)
}

/// Whether a problem passes: nothing is recorded, and the same question may have a reply after a second.
fn passes(problem: Option<Problem>) -> bool
    ensures { result ≡ specs.passes problem }
{
    matches!(
        problem,
        Some(Problem::TooManyRequests | Problem::Unavailable)
    )
}

/// Puts the body of an answer to one question at the end of a body, and returns its problem, if it is no reply. The
/// body rests on the question's subject, the first line without the tag and the bytes of the later lines.
fn push_answer<A: Allocator>(
    body: &mut Vec<u8, A>,
    subject: &Subject,
    line: &[u8],
    later: &[u8],
) -> Result<Option<Problem>, AllocError>
    ensures problem { IfOk result (λ problem. problem ≡ specs.problem_where (specs.places_of (specs.first_word line.now)) line.now) }
    ensures body { OnOk result (body.new.items ≡ body.old.items ++ specs.body_where (specs.places_of (specs.first_word line.now)) subject.now line.now (input_lines later.now)) }
{
    let (word, _) = cut_word(line);
    match places_of(word) {
        Some(places) => {
            push_reply(body, places, subject, line, later)?;
            Ok(None)
        }
        None => {
            let problem = push_problem(body, &subject.scanned, fault_of(line))?;
            Ok(Some(problem))
        }
    }
}

/// The first line of a text without its tag, and the bytes after it.
fn first_line(text: &[u8]) -> (&[u8], &[u8])
    ensures line { result.0.now ≡ specs.first_line (input_lines text.now) }
    ensures later { input_lines result.1.now ≡ drop 1 (input_lines text.now) }
{
    match cut_line(text) {
        Some((line, later)) => (untagged(line), later),
        None => (b"", b""),
    }
}

/// A line without its tag.
fn untagged(line: &[u8]) -> &[u8]
    ensures { result.now ≡ specs.untagged line.now }
{
    match line {
        [b'#', ..] => cut_word(line).1,
        _ => line,
    }
}

/// The first word of a line, and the words after it.
fn cut_word(line: &[u8]) -> (&[u8], &[u8])
    ensures first { result.0.now ≡ specs.first_word line.now }
    ensures later { result.1.now ≡ specs.later_words line.now }
{
    match memchr(b' ', line) {
        Some(space) => (&line[..space], &line[space + 1..]),
        None => (line, b""),
    }
}

/// The places of the words that follow this one in the first line of a reply.
#[tactic(auto, unfolding(crate::specs::Replies::places_of))]
fn places_of(word: &[u8]) -> Option<&'static [Place]>
    ensures { option_map (λ places. map place_of places.now) result ≡ specs.places_of word.now }
{
    named(ROWS, word)
}

/// The problem of a fault.
#[tactic(auto, unfolding(crate::specs::Replies::problem_named))]
fn problem_named(fault: &[u8]) -> Problem
    ensures { result ≡ specs.problem_named fault.now }
{
    named(&FAULTS, fault).unwrap_or(Problem::Unknown)
}

/// The text of a fault in the table.
#[tactic(auto, unfolding(crate::specs::Replies::detail_named))]
fn detail_named(fault: &[u8]) -> Option<&'static str>
    ensures { option_map (λ detail. detail.now) result ≡ specs.detail_named fault.now }
{
    named(DETAILS, fault)
}

/// The text of a fault.
fn detail_of(fault: &[u8]) -> &'static str
    ensures { result.now ≡ specs.detail_of fault.now }
{
    match detail_named(fault) {
        Some(detail) => detail,
        None => "The line of the question cannot be read.",
    }
}

/// The fault of a line without a reply.
fn fault_of(line: &[u8]) -> &[u8]
    ensures { result.now ≡ specs.fault_of line.now }
{
    let (word, fault) = cut_word(line);
    if word == FAULT { fault } else { b"ENDED" }
}

/// Puts the object of a reply at the end of a body.
fn push_reply<A: Allocator>(
    body: &mut Vec<u8, A>,
    places: &[Place],
    subject: &Subject,
    line: &[u8],
    later: &[u8],
) -> Result<(), AllocError>
    ensures { OnOk result (body.new.items ≡ body.old.items ++ specs.reply_object (map place_of places.now) subject.now line.now (input_lines later.now)) }
{
    let (word, words) = cut_word(line);
    body.extend_from_slice(b"{\"reply\":")?;
    push_string(body, word)?;
    push_members(body, places, words)?;
    push_alert(body, &subject.code, word, words)?;
    push_scanned(body, &subject.scanned, pack_words(word, words))?;
    push_later(body, word, later)?;
    body.extend_from_slice(b"}\n")
}

/// Puts the name of an alert on this product code at the end of a body. The words of a reply are its first one and the
/// later ones.
#[tactic(auto, unfolding(crate::specs::Replies::alert_member))]
fn push_alert<A: Allocator>(
    body: &mut Vec<u8, A>,
    code: &Option<ProductCode>,
    word: &[u8],
    words: &[u8],
) -> Result<(), AllocError>
    ensures { OnOk result (body.new.items ≡ body.old.items ++ specs.alert_member code.now word.now words.now) }
{
    match code {
        Some(code) if word == ALERT => push_alert_name(body, code, words),
        _ => Ok(()),
    }
}

/// Puts the name of an alert at the end of a body, by its product code and the words of its reply after the first.
#[tactic(auto, unfolding(crate::specs::Replies::name_member))]
fn push_alert_name<A: Allocator>(
    body: &mut Vec<u8, A>,
    code: &ProductCode,
    words: &[u8],
) -> Result<(), AllocError>
    ensures { OnOk result (body.new.items ≡ body.old.items ++ specs.name_member code.now words.now) }
{
    let (number, _) = cut_word(cut_word(cut_word(words).1).1);
    push_name(body, b"alert")?;
    body.extend_from_slice(b"\"")?;
    body.extend_from_slice(code.text().as_bytes())?;
    body.extend_from_slice(b"-")?;
    body.extend_from_slice(number)?;
    body.extend_from_slice(b"\"")
}

/// The words of a reply from its batch number and expiry date on, by its first word and its later words, if it says them.
#[tactic(auto, unfolding(crate::specs::Replies::pack_words))]
fn pack_words<'w>(word: &[u8], words: &'w [u8]) -> Option<&'w [u8]>
    ensures { option_copied result ≡ specs.pack_words word.now words.now }
{
    if word == AUTHENTIC {
        Some(words)
    } else if word == STATUS {
        Some(cut_word(cut_word(cut_word(words).1).1).1)
    } else {
        None
    }
}

/// Puts the comparison of scanned values with these words of a reply at the end of a body, if there are both.
fn push_scanned<A: Allocator>(
    body: &mut Vec<u8, A>,
    scanned: &Option<Scanned>,
    words: Option<&[u8]>,
) -> Result<(), AllocError>
    ensures { OnOk result (body.new.items ≡ body.old.items ++ specs.scanned_member scanned.now (option_copied words.entry)) }
{
    match (scanned, words) {
        (Some(Ok(printed)), Some(words)) => push_comparison(body, printed, words),
        _ => Ok(()),
    }
}

/// Puts the comparison of scanned values with words that begin with a batch number and an expiry date at the end of a body.
#[tactic(auto, unfolding(crate::specs::Replies::comparison_member))]
fn push_comparison<A: Allocator>(
    body: &mut Vec<u8, A>,
    scanned: &Printed,
    words: &[u8],
) -> Result<(), AllocError>
    ensures { OnOk result (body.new.items ≡ body.old.items ++ specs.comparison_member scanned.now words.now) }
{
    let (batch, later) = cut_word(words);
    let (expiry, _) = cut_word(later);
    body.extend_from_slice(b",\"scanned\":{\"batch\":\"")?;
    body.extend_from_slice(comparison(scanned.batch.text(), batch))?;
    body.extend_from_slice(b"\",\"expiry\":\"")?;
    body.extend_from_slice(comparison(scanned.expiry.text().as_str(), expiry))?;
    body.extend_from_slice(b"\"}")
}

/// Whether a scanned value is that of the reply, as a word.
fn comparison(scanned: &str, said: &[u8]) -> &'static [u8]
    ensures { result.now ≡ specs.comparison scanned.now said.now }
{
    if scanned.as_bytes() == said {
        b"MATCHES"
    } else {
        b"DIFFERS"
    }
}

/// Puts the entries or batches in the later lines of a reply at the end of a body.
#[tactic(auto, unfolding(crate::specs::Replies::later_members))]
fn push_later<A: Allocator>(
    body: &mut Vec<u8, A>,
    word: &[u8],
    later: &[u8],
) -> Result<(), AllocError>
    ensures { OnOk result (body.new.items ≡ body.old.items ++ specs.later_members word.now (input_lines later.now)) }
{
    if word == SHOWN {
        return push_entries(body, later);
    }
    if word == PRODUCT {
        return push_batches(body, later);
    }
    Ok(())
}

fn push_entries<A: Allocator>(body: &mut Vec<u8, A>, later: &[u8]) -> Result<(), AllocError>
    ensures { OnOk result (body.new.items ≡ body.old.items ++ (codes ",\"entries\":[" ++ (specs.separated [] (input_lines later.now) ++ codes "]"))) }
{
    body.extend_from_slice(b",\"entries\":[")?;
    push_lines(body, later)?;
    body.extend_from_slice(b"]")
}

/// Puts lines as they are at the end of a body, with a comma between each two.
fn push_lines<A: Allocator>(body: &mut Vec<u8, A>, lines: &[u8]) -> Result<(), AllocError>
    ensures { OnOk result (body.new.items ≡ body.old.items ++ specs.separated [] (input_lines lines.now)) }
{
    let mut comma: &[u8] = b"";
    let mut rest = lines;
    while let Some((line, after)) = cut_line(rest) {
        body.extend_from_slice(comma)?;
        body.extend_from_slice(line)?;
        comma = b",";
        rest = after;
    }
    Ok(())
}

fn push_batches<A: Allocator>(body: &mut Vec<u8, A>, later: &[u8]) -> Result<(), AllocError>
    ensures { OnOk result (body.new.items ≡ body.old.items ++ (codes ",\"batches\":[" ++ (specs.separated [] (specs.batch_objects (input_lines later.now)) ++ codes "]"))) }
{
    body.extend_from_slice(b",\"batches\":[")?;
    push_batch_lines(body, later)?;
    body.extend_from_slice(b"]")
}

/// Puts the batches of a report at the end of a body, with a comma between each two.
fn push_batch_lines<A: Allocator>(body: &mut Vec<u8, A>, lines: &[u8]) -> Result<(), AllocError>
    ensures { OnOk result (body.new.items ≡ body.old.items ++ specs.separated [] (specs.batch_objects (input_lines lines.now))) }
{
    let mut front: &[u8] = b"";
    let mut rest = lines;
    while let Some((line, after)) = cut_line(rest) {
        let (word, words) = cut_word(untagged(line));
        if word != BATCH {
            return Ok(());
        }
        body.extend_from_slice(front)?;
        push_batch(body, words)?;
        front = b",";
        rest = after;
    }
    Ok(())
}

/// Puts the object of a batch at the end of a body, by the words after `BATCH`.
fn push_batch<A: Allocator>(body: &mut Vec<u8, A>, line: &[u8]) -> Result<(), AllocError>
    ensures { OnOk result (body.new.items ≡ body.old.items ++ specs.batch_object line.now) }
{
    let (batch, words) = cut_word(line);
    body.extend_from_slice(b"{\"batch\":")?;
    push_string(body, batch)?;
    push_members(body, batch_places(), words)?;
    body.extend_from_slice(b"}")
}

/// The places of the words of a batch in a report, after `BATCH` and the batch number.
#[tactic(auto, unfolding(crate::specs::Replies::batch_places))]
fn batch_places() -> &'static [Place]
    ensures { map place_of result.now ≡ specs.batch_places }
{
    &[
        Place::String(b"lock"),
        Place::Label,
        Place::Number(b"active"),
        Place::Label,
        Place::Number(b"held"),
        Place::Label,
        Place::Number(b"supplied"),
        Place::Label,
        Place::Number(b"exported"),
        Place::Label,
        Place::Number(b"sampled"),
        Place::Label,
        Place::Number(b"destroyed"),
        Place::Label,
        Place::Number(b"stolen"),
    ]
}

/// Puts the words of a line at the end of a body, each as the member that its place names.
fn push_members<A: Allocator>(
    body: &mut Vec<u8, A>,
    places: &[Place],
    words: &[u8],
) -> Result<(), AllocError>
    ensures { OnOk result (body.new.items ≡ body.old.items ++ specs.members (map place_of places.now) words.now) }
{
    let mut rest = words;
    for place in places {
        let (word, after) = cut_word(rest);
        push_member(body, *place, word)?;
        rest = after;
    }
    Ok(())
}

fn push_member<A: Allocator>(
    body: &mut Vec<u8, A>,
    place: Place,
    word: &[u8],
) -> Result<(), AllocError>
    ensures { OnOk result (body.new.items ≡ body.old.items ++ specs.member (place_of place, word.now)) }
{
    match place {
        Place::String(name) => {
            push_name(body, name)?;
            push_string(body, word)
        }
        Place::Number(name) => {
            push_name(body, name)?;
            body.extend_from_slice(word)
        }
        Place::Label => Ok(()),
    }
}

/// Puts the name of a member at the end of a body, with the comma before it and the colon after it.
fn push_name<A: Allocator>(body: &mut Vec<u8, A>, name: &[u8]) -> Result<(), AllocError>
    ensures { OnOk result (body.new.items ≡ body.old.items ++ (codes ",\"" ++ (name.now ++ codes "\":"))) }
{
    body.extend_from_slice(b",\"")?;
    body.extend_from_slice(name)?;
    body.extend_from_slice(b"\":")
}

/// Puts a string at the end of a body.
fn push_string<A: Allocator>(body: &mut Vec<u8, A>, text: &[u8]) -> Result<(), AllocError>
    ensures { OnOk result (body.new.items ≡ body.old.items ++ specs.quoted text.now) }
{
    body.extend_from_slice(b"\"")?;
    push_text(body, text)?;
    body.extend_from_slice(b"\"")
}

/// Puts the characters of a string at the end of a body.
fn push_text<A: Allocator>(body: &mut Vec<u8, A>, text: &[u8]) -> Result<(), AllocError>
    ensures { OnOk result (body.new.items ≡ body.old.items ++ flat_map specs.escaped text.now) }
{
    for byte in text {
        push_escaped(body, *byte)?;
    }
    Ok(())
}

fn push_escaped<A: Allocator>(body: &mut Vec<u8, A>, byte: u8) -> Result<(), AllocError>
    ensures { OnOk result (body.new.items ≡ body.old.items ++ specs.escaped byte) }
{
    if byte == b'"' || byte == b'\\' {
        body.push(b'\\')?;
    }
    Ok(body.push(byte)?)
}

/// Puts the problem of a fault at the end of a body, by the scanned values of its question, and returns it.
fn push_problem<A: Allocator>(
    body: &mut Vec<u8, A>,
    scanned: &Option<Scanned>,
    fault: &[u8],
) -> Result<Problem, AllocError>
    ensures problem { IfOk result (λ problem. problem ≡ specs.problem_named fault.now) }
    ensures body { OnOk result (body.new.items ≡ body.old.items ++ specs.problem_object scanned.now fault.now) }
{
    let problem = problem_named(fault);
    push_type(body, fault)?;
    push_said(body, problem, fault)?;
    push_fault(body, problem, fault)?;
    push_unread(body, scanned)?;
    body.extend_from_slice(b"}\n")?;
    Ok(problem)
}

/// Puts the beginning of a problem, with its type, at the end of a body.
#[tactic(auto, unfolding(crate::specs::Replies::type_text))]
fn push_type<A: Allocator>(body: &mut Vec<u8, A>, fault: &[u8]) -> Result<(), AllocError>
    ensures { OnOk result (body.new.items ≡ body.old.items ++ specs.type_text fault.now) }
{
    body.extend_from_slice(b"{\"type\":\"/problems#")?;
    push_text(body, fault)?;
    body.extend_from_slice(b"\"")
}

/// Puts the title, the status and the text of a problem at the end of a body.
#[tactic(auto, unfolding(crate::specs::Replies::said_text))]
fn push_said<A: Allocator>(
    body: &mut Vec<u8, A>,
    problem: Problem,
    fault: &[u8],
) -> Result<(), AllocError>
    ensures { OnOk result (body.new.items ≡ body.old.items ++ specs.said_text problem fault.now) }
{
    body.extend_from_slice(problem_front(problem))?;
    push_string(body, detail_of(fault).as_bytes())
}

/// Puts the fault of a problem, and whether something is recorded, at the end of a body.
#[tactic(auto, unfolding(crate::specs::Replies::fault_text))]
fn push_fault<A: Allocator>(
    body: &mut Vec<u8, A>,
    problem: Problem,
    fault: &[u8],
) -> Result<(), AllocError>
    ensures { OnOk result (body.new.items ≡ body.old.items ++ specs.fault_text problem fault.now) }
{
    body.extend_from_slice(b",\"fault\":")?;
    push_string(body, fault)?;
    body.extend_from_slice(recorded_member(problem))
}

/// Puts the reason why the scan of a question cannot be read at the end of a problem, if it cannot.
fn push_unread<A: Allocator>(
    body: &mut Vec<u8, A>,
    scanned: &Option<Scanned>,
) -> Result<(), AllocError>
    ensures { OnOk result (body.new.items ≡ body.old.items ++ specs.unread_member scanned.now) }
{
    match scanned {
        Some(Err(fault)) => push_member(body, Place::String(b"scan"), scan_word(*fault)),
        _ => Ok(()),
    }
}

/// The fault of a scan as a word.
fn scan_word(fault: ScanFault) -> &'static [u8]
    ensures { result.now ≡ specs.scan_word fault }
{
    match fault {
        ScanFault::Long => b"LONG",
        ScanFault::PlainDataMatrix => b"PLAIN_DATA_MATRIX",
        ScanFault::Symbology => b"SYMBOLOGY",
        ScanFault::NoElement => b"NO_ELEMENT",
        ScanFault::Element(_) => b"ELEMENT",
        ScanFault::Short(_) => b"SHORT",
        ScanFault::Twice(_) => b"TWICE",
        ScanFault::Missing(_) => b"MISSING",
        ScanFault::Value(_) => b"VALUE",
    }
}

/// The title and the status of a problem (RFC 9457).
#[tactic(auto, unfolding(crate::specs::Replies::problem_front))]
fn problem_front(problem: Problem) -> &'static [u8]
    ensures { result.now ≡ specs.problem_front problem }
{
    match problem {
        Problem::Unprocessable => {
            b",\"title\":\"Unprocessable Content\",\"status\":422,\"detail\":"
        }
        Problem::Forbidden => { b",\"title\":\"Forbidden\",\"status\":403,\"detail\":" }
        Problem::Conflict => { b",\"title\":\"Conflict\",\"status\":409,\"detail\":" }
        Problem::PreconditionFailed => {
            b",\"title\":\"Precondition Failed\",\"status\":412,\"detail\":"
        }
        Problem::TooManyRequests => {
            b",\"title\":\"Too Many Requests\",\"status\":429,\"detail\":"
        }
        Problem::Unavailable | Problem::Unknown => {
            b",\"title\":\"Service Unavailable\",\"status\":503,\"detail\":"
        }
    }
}

/// Whether something is recorded, as a member.
fn recorded_member(problem: Problem) -> &'static [u8]
    ensures { result.now ≡ specs.recorded_member problem }
{
    match problem {
        Problem::Unknown => b",\"recorded\":\"unknown\"",
        _ => b",\"recorded\":\"no\"",
    }
}
