//! One flagged alert with its pack's story, as JSON.
ghost use Rattle.std.specs.Prelude.{◌≡◌, ◌++◌, OnOk};
ghost use Rattle.nmvs_cases.specs.Authors.{author_reader};
ghost use Rattle.nmvs_alerts.specs.One as one;

use crate::FlaggedAlert;
use crate::json::{append, append_name, append_text};
use crate::row::append_row;
use crate::viewing::sees_houses;
use nmvs_cases::{Act, Author, Case, Informed, Reader, Verdict, Whom};
use nmvs_rules::Known;
use nmvs_shard::Shard;
use std::alloc::{AllocError, Allocator, Global};

/// Puts an alert at the end of a block, up to its acts: the members of its row, who looks at it, what was found, who was informed, what
/// the reader may do now, and what is known of the pack.
#[tactic(auto, unfolding(crate::specs::One::alert_text))]
pub(crate) fn append_alert<A: Allocator>(
    alloc: Global,
    block: &mut Vec<u8>,
    shard: &Shard<A>,
    author: &Author,
    alert: &FlaggedAlert,
) -> Result<(), AllocError>
    ensures { OnOk result (block.new.items ≡ block.old.items ++ one.alert_text shard.now author.now alert.now) }
{
    append_row(alloc, block, alert, sees_houses(author))?;
    append_text(block, "by", taken_by(author, &alert.case))?;
    append_text(block, "verdict", verdict_of(&alert.case))?;
    append_informed(block, &alert.case)?;
    append_may(block, &alert.case, author)?;
    append_known(block, &shard.tables().facts(&alert.entry.put.question).pack)
}

/// The name of who took the case, if anybody has. An owner does not see it.
fn taken_by<'c>(author: &Author, case: &'c Case) -> &'c str
    ensures { result.now ≡ one.taken_by (author_reader author.now) case.now }
{
    match (author.reader(), case) {
        (Reader::Officer | Reader::Authority, Case::Taken(user)) => user.text(),
        _ => "",
    }
}

/// The verdict by which the case was closed, if it was.
fn verdict_of(case: &Case) -> &'static str
    ensures { result.now ≡ one.verdict_of case.now }
{
    match case {
        Case::Closed(verdict) => verdict.word(),
        _ => "",
    }
}

/// Puts the list of those who were informed at the end of a block.
#[tactic(auto, unfolding(crate::specs::One::informed_text, crate::specs::One::those_of))]
fn append_informed(block: &mut Vec<u8>, case: &Case) -> Result<(), AllocError>
    ensures { OnOk result (block.new.items ≡ block.old.items ++ one.informed_text case.now) }
{
    append_name(block, "informed")?;
    append(block, "[")?;
    if let Case::Confirmed(informed) = case {
        append_those(block, informed)?;
    }
    append(block, "]")
}

#[tactic(auto, unfolding(crate::specs::One::those))]
fn append_those(block: &mut Vec<u8>, informed: &Informed) -> Result<(), AllocError>
    ensures { OnOk result (block.new.items ≡ block.old.items ++ one.those informed.now) }
{
    match (informed.authority, informed.agency, informed.commission) {
        (false, false, false) => Ok(()),
        (true, false, false) => append(block, "\"AUTHORITY\""),
        (false, true, false) => append(block, "\"EMA\""),
        (false, false, true) => append(block, "\"COMMISSION\""),
        (true, true, false) => append(block, "\"AUTHORITY\",\"EMA\""),
        (true, false, true) => append(block, "\"AUTHORITY\",\"COMMISSION\""),
        (false, true, true) => append(block, "\"EMA\",\"COMMISSION\""),
        (true, true, true) => append(block, "\"AUTHORITY\",\"EMA\",\"COMMISSION\""),
    }
}

/// Puts the list of the acts that a reader may do now at the end of a block. A note is always among them. What an act makes of a case
/// rests on neither its verdict nor on who is informed.
#[tactic(auto, unfolding(crate::specs::One::may_text))]
fn append_may(block: &mut Vec<u8>, case: &Case, author: &Author) -> Result<(), AllocError>
    ensures { OnOk result (block.new.items ≡ block.old.items ++ one.may_text case.now author.now) }
{
    append_name(block, "may")?;
    append(block, "[")?;
    append_before(block, Act::Take, case, author)?;
    append_before(block, Act::Leave, case, author)?;
    append(block, "\"NOTE\"")?;
    append_behind(block, Act::Close(Verdict::Technical), case, author)?;
    append_behind(block, Act::Confirm, case, author)?;
    append_behind(block, Act::Inform(Whom::Agency), case, author)?;
    append_behind(block, Act::Reopen, case, author)?;
    append(block, "]")
}

/// Puts the word of an act and a comma at the end of a block, if the author may do it.
#[tactic(auto, unfolding(crate::specs::One::before))]
fn append_before(
    block: &mut Vec<u8>,
    act: Act,
    case: &Case,
    author: &Author,
) -> Result<(), AllocError>
    ensures { OnOk result (block.new.items ≡ block.old.items ++ one.before act case.now author.now) }
{
    if !may(act, case, author) {
        return Ok(());
    }
    append(block, "\"")?;
    append(block, act.word())?;
    append(block, "\",")
}

/// The same with the comma before it.
#[tactic(auto, unfolding(crate::specs::One::behind))]
fn append_behind(
    block: &mut Vec<u8>,
    act: Act,
    case: &Case,
    author: &Author,
) -> Result<(), AllocError>
    ensures { OnOk result (block.new.items ≡ block.old.items ++ one.behind act case.now author.now) }
{
    if !may(act, case, author) {
        return Ok(());
    }
    append(block, ",\"")?;
    append(block, act.word())?;
    append(block, "\"")
}

/// Whether an author may do an act on a case.
fn may(act: Act, case: &Case, author: &Author) -> bool
    ensures { result ≡ one.may act case.now author.now }
{
    case.after(act, author.reader(), author.user()).is_some()
}

/// Puts batch and expiry date of a pack at the end of a block. They are empty if the pack is unknown.
#[tactic(auto, unfolding(crate::specs::One::known_text))]
fn append_known(block: &mut Vec<u8>, known: &Option<Known>) -> Result<(), AllocError>
    ensures { OnOk result (block.new.items ≡ block.old.items ++ one.known_text known.now) }
{
    match known {
        None => append(block, ",\"batch\":\"\",\"expiry\":\"\""),
        Some(known) => {
            append_text(block, "batch", known.batch.text())?;
            append_text(block, "expiry", known.expiry.as_str())
        }
    }
}
