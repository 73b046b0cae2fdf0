//! The texts of answers.
ghost use Rattle.std.specs.Prelude.{◌≡◌, ◌≤◌, [], ◌∷◌, length, map, codes, IfOk, string_bytes};
ghost use Rattle.std.specs.Fmt.{decimal};
ghost use Rattle.nmvs_words.specs.Words.{spaced};
ghost use Rattle.nmvs_messages.specs.Words.{reply_words, word_of};
ghost use Rattle.nmvs_protocol.specs.Texts.{content_text, reply_text as text_of_reply, showing};
ghost use Rattle.nmvs_protocol.specs.Wordings.{wording_text};

use crate::help::help;
use crate::wording::Wording;
use arrayvec::ArrayString;
use itoa::Buffer;
use nmvs_identifier::{Batch, Expiry};
use nmvs_line::entry_line;
use nmvs_messages::{Content, Fault};
use nmvs_rules::{BatchLock, Cause, Entry, Onward, OwnStatus, Refusal, Reply};
use nmvs_words::{
    cause_word, flag_word, lock_word, onward_word, own_word, refusal_word, validity_word,
};
use std::alloc::{AllocError, Global};

/// The version of the program, which each of its programs prints (own).
pub const VERSION: &str = "0.9.0";

/// The most bytes of the text of a short answer: a status with the longest words and values, and LF.
const LONGEST_REPLY: usize = 67;

/// The text of a short answer.
pub(crate) type ShortLine = ArrayString<LONGEST_REPLY>;

/// The text of a reply and of the entries that it shows: its line, and then the line of each entry.
///
/// # Errors
///
/// There is no memory for the text.
pub fn reply_text(alloc: Global, reply: &Reply, shown: &[Entry]) -> Result<String, AllocError>
    ensures { IfOk result (λ t. string_bytes t ≡ text_of_reply reply.now shown.now) }
{
    let first = reply_line(reply);
    let mut text = String::from_str(alloc, first.as_str())?;
    for entry in shown {
        text.push_str(entry_line(entry).as_str())?;
        text.push_str("\n")?;
    }
    Ok(text)
}

/// The text of an answer's content without a tag and without the lines that follow it, with its last LF.
#[tactic(auto, unfolding(crate::specs::Texts::content_text))]
pub(crate) fn wording(content: &Content) -> Wording<'_>
    ensures { wording_text result ≡ content_text (showing [] content.now) }
{
    match content {
        Content::Replied(reply, _) => Wording::Composed(reply_line(reply)),
        Content::Reported(first, _) => Wording::Lent(first.text()),
        Content::Turned(turn) => Wording::Composed(fault_line(Fault::Turned(*turn))),
        Content::Unread(fault) => Wording::Composed(fault_line(Fault::Unread(*fault))),
        Content::Pong => Wording::Composed(in_words("PONG", &[])),
        Content::Version => Wording::Composed(in_words("VERSION", &[VERSION])),
        Content::Help => Wording::Lent(help()),
        Content::Bye => Wording::Composed(in_words("BYE", &[])),
    }
}

fn fault_line(fault: Fault) -> ShortLine
    ensures { result.bytes ≡ spaced (codes "FAULT" ∷ word_of fault ∷ []) }
{
    in_words("FAULT", &[fault.word()])
}

fn reply_line(reply: &Reply) -> ShortLine
    ensures { result.bytes ≡ spaced (reply_words reply.now) }
{
    let mut line = ShortLine::new();
    push_reply(&mut line, reply);
    line
}

/// Puts the words of a reply into an empty line.
fn push_reply(line: &mut ShortLine, reply: &Reply)
    requires { line.old.bytes ≡ [] }
    ensures { line.new.bytes ≡ spaced (reply_words reply.now) }
{
    match reply {
        Reply::Uploaded => push_words(line, "UPLOADED", &[]),
        Reply::Authentic {
            batch,
            expiry,
            expired,
        } => push_authentic(line, *batch, *expiry, *expired),
        Reply::Alert {
            cause,
            flagged,
            number,
        } => push_alert(line, *cause, *flagged, *number),
        Reply::StatusIs {
            own,
            lock,
            onward,
            batch,
            expiry,
        } => push_status(line, *own, *lock, *onward, *batch, *expiry),
        Reply::NoPack => push_words(line, "NOPACK", &[]),
        Reply::Decommissioned => push_words(line, "DECOMMISSIONED", &[]),
        Reply::HandedOver => push_words(line, "HANDED_OVER", &[]),
        Reply::Reverted => push_words(line, "REVERTED", &[]),
        Reply::LockedNow(count) => push_count(line, "LOCKED", *count),
        Reply::MarkedStolen => push_words(line, "STOLEN", &[]),
        Reply::Shown(count) => push_count(line, "SHOWN", *count),
        Reply::Refused(refusal) => push_refusal(line, *refusal),
    }
}

fn push_authentic(line: &mut ShortLine, batch: Batch, expiry: Expiry, expired: bool)
    requires { line.old.bytes ≡ [] }
    ensures { line.new.bytes ≡ spaced (reply_words (Reply.Authentic batch expiry expired)) }
{
    push_words(
        line,
        "AUTHENTIC",
        &[batch.text(), expiry.as_str(), validity_word(expired)],
    );
}

fn push_alert(line: &mut ShortLine, cause: Cause, flagged: bool, number: u64)
    requires { line.old.bytes ≡ [] }
    ensures { line.new.bytes ≡ spaced (reply_words (Reply.Alert cause flagged number)) }
{
    let mut digits = Buffer::new();
    push_words(
        line,
        "ALERT",
        &[cause_word(cause), flag_word(flagged), digits.format(number)],
    );
}

fn push_status(
    line: &mut ShortLine,
    own: OwnStatus,
    lock: BatchLock,
    onward: Onward,
    batch: Batch,
    expiry: Expiry,
)
    requires { line.old.bytes ≡ [] }
    ensures { line.new.bytes ≡ spaced (reply_words (Reply.StatusIs own lock onward batch expiry)) }
{
    push_words(
        line,
        "STATUS",
        &[
            own_word(own),
            lock_word(lock),
            onward_word(onward),
            batch.text(),
            expiry.as_str(),
        ],
    );
}

fn push_count(line: &mut ShortLine, word: &str, count: u64)
    requires empty { line.old.bytes ≡ [] }
    requires short { length word.now ≤ 6 }
    ensures { line.new.bytes ≡ spaced (word.now ∷ decimal count ∷ []) }
{
    let mut digits = Buffer::new();
    push_words(line, word, &[digits.format(count)]);
}

fn push_refusal(line: &mut ShortLine, refusal: Refusal)
    requires { line.old.bytes ≡ [] }
    ensures { line.new.bytes ≡ spaced (reply_words (Reply.Refused refusal)) }
{
    let mut digits = Buffer::new();
    push_words(
        line,
        "REFUSED",
        &[digits.format(refusal.number()), refusal_word(refusal)],
    );
}

/// The words in a line.
fn in_words(first: &str, others: &[&str]) -> ShortLine
    requires { length (spaced (first.now ∷ map (λ w. w.now) others.now)) ≤ LONGEST_REPLY }
    ensures { result.bytes ≡ spaced (first.now ∷ map (λ w. w.now) others.now) }
{
    let mut line = ShortLine::new();
    push_words(&mut line, first, others);
    line
}

/// Puts words into an empty line, with a space between each two, and LF after the last.
fn push_words(line: &mut ShortLine, first: &str, others: &[&str])
    requires empty { line.old.bytes ≡ [] }
    requires short { length (spaced (first.now ∷ map (λ w. w.now) others.now)) ≤ LONGEST_REPLY }
    ensures { line.new.bytes ≡ spaced (first.now ∷ map (λ w. w.now) others.now) }
{
    line.push_str(first);
    let mut rest = others;
    while let [word, later @ ..] = rest {
        line.push_str(" ");
        line.push_str(word);
        rest = later;
    }
    line.push_str("\n");
}
