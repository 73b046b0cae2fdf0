//! Replies as cells of CSV: the word, and each value in a column of its kind.
ghost use Rattle.std.specs.Prelude.{◌≡◌, ◌++◌, [], map, filter, IfOk, OnOk, string_bytes};
ghost use Rattle.csv.specs.Writing.{default_writer, row_text};
ghost use Rattle.nmvs_protocol.specs.Texts.{reply_text};
ghost use Rattle.nmvs_words.specs.Words.{spaced};
ghost use Rattle.nmvs_inspect.specs.Replies as spec;

use crate::Form;
use crate::rows::append_joined;
use nmvs_rules::Reply;
use nmvs_words::{
    ReplyKind, cause_word, flag_word, lock_word, onward_word, own_word, refusal_word, validity_word,
};
use std::alloc::{AllocError, Global};

/// Puts a row of CSV at the end of a block: these cells, and those of a reply. No word of the reply is lost: its cells
/// that are not empty are its text.
pub(crate) fn append_values(
    alloc: Global,
    block: &mut Vec<u8>,
    front: &[&[u8]],
    reply: &Reply,
) -> Result<(), AllocError>
    ensures row { OnOk result (block.new.items ≡ block.old.items
        ++ row_text default_writer (map (λ c. c.now) front.now ++ spec.value_cells reply.now)) }
    ensures whole { spaced (filter spec.is_filled (spec.value_cells reply.now)) ≡ reply_text reply.now [] }
{
    reply.tell_ranges();
    let number = number_text(alloc, reply)?;
    let detail = detail_text(alloc, reply)?;
    let values = [
        ReplyKind::of(reply).word().as_bytes(),
        cause_text(reply).as_bytes(),
        flag_text(reply).as_bytes(),
        number.as_bytes(),
        refusal_text(reply).as_bytes(),
        detail.as_bytes(),
    ];
    append_joined(alloc, block, Form::Csv, front, &values)
}

/// The cause of an alert; other replies have none.
pub(crate) fn cause_text(reply: &Reply) -> &'static str
    ensures { result.now ≡ spec.cause_text reply.now }
{
    match reply {
        Reply::Alert { cause, .. } => cause_word(*cause),
        _ => "",
    }
}

/// Whether an alert is flagged, in a word; other replies have none.
fn flag_text(reply: &Reply) -> &'static str
    ensures { result.now ≡ spec.flag_text reply.now }
{
    match reply {
        Reply::Alert { flagged, .. } => flag_word(*flagged),
        _ => "",
    }
}

/// The number that a reply has, if any.
fn number_text(alloc: Global, reply: &Reply) -> Result<String, AllocError>
    ensures { IfOk result (λ text. string_bytes text ≡ spec.number_text reply.now) }
{
    match reply {
        Reply::Alert { number, .. } | Reply::LockedNow(number) | Reply::Shown(number) => {
            format!(in alloc; "{number}")
        }
        Reply::Refused(refusal) => format!(in alloc; "{}", refusal.number()),
        _ => Ok(String::new(alloc)),
    }
}

/// The reason of a refusal, in a word; other replies have none.
fn refusal_text(reply: &Reply) -> &'static str
    ensures { result.now ≡ spec.refusal_text reply.now }
{
    match reply {
        Reply::Refused(refusal) => refusal_word(*refusal),
        _ => "",
    }
}

/// The details of a pack that is authentic, or whose status was asked for; other replies have none.
fn detail_text(alloc: Global, reply: &Reply) -> Result<String, AllocError>
    ensures { IfOk result (λ text. string_bytes text ≡ spec.detail_text reply.now) }
{
    match reply {
        Reply::Authentic {
            batch,
            expiry,
            expired,
        } => {
            let (batch, expiry) = (batch.text(), expiry.text());
            let validity = validity_word(*expired);
            format!(in alloc; "{batch} {expiry} {validity}")
        }
        Reply::StatusIs {
            own,
            lock,
            onward,
            batch,
            expiry,
        } => {
            let (own, lock, onward) = (own_word(*own), lock_word(*lock), onward_word(*onward));
            let (batch, expiry) = (batch.text(), expiry.text());
            format!(in alloc; "{own} {lock} {onward} {batch} {expiry}")
        }
        _ => Ok(String::new(alloc)),
    }
}
