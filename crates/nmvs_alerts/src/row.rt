//! The row of a flagged alert, as JSON.
ghost use Rattle.std.specs.Prelude.{◌≡◌, ◌++◌, OnOk, string_bytes, IfOk};
ghost use Rattle.nmvs_alerts.specs.Rows as rows;

use crate::FlaggedAlert;
use crate::json::{append, append_number, append_text};
use nmvs_cases::{Case, Hint};
use nmvs_identifier::Pack;
use nmvs_rules::Put;
use nmvs_words::{QuestionKind, cause_word, role_word};
use std::alloc::{AllocError, Global};

/// Puts the members of a row at the end of a block, behind an opening brace. The house is who asked, in which capacity.
#[tactic(auto, unfolding(crate::specs::Rows::row_text))]
pub(crate) fn append_row(
    alloc: Global,
    block: &mut Vec<u8>,
    alert: &FlaggedAlert,
    with_house: bool,
) -> Result<(), AllocError>
    ensures { OnOk result (block.new.items ≡ block.old.items ++ rows.row_text alert.now with_house) }
{
    append_front(alloc, block, alert)?;
    append_pack(block, &alert.entry.put)?;
    append_state(block, alert)?;
    if with_house {
        append_house(block, &alert.entry.put)?;
    }
    Ok(())
}

#[tactic(auto, unfolding(crate::specs::Rows::front_text))]
fn append_front(alloc: Global, block: &mut Vec<u8>, alert: &FlaggedAlert) -> Result<(), AllocError>
    ensures { OnOk result (block.new.items ≡ block.old.items ++ rows.front_text alert.now) }
{
    let name = alert.name;
    let front = format!(in alloc; "{{\"alert\":\"{name}\"")?;
    append(block, &front)?;
    append_number(block, "moment", alert.entry.put.moment.seconds() as u64)
}

#[tactic(auto, unfolding(crate::specs::Rows::pack_text))]
fn append_pack(block: &mut Vec<u8>, put: &Put) -> Result<(), AllocError>
    ensures { OnOk result (block.new.items ≡ block.old.items ++ rows.pack_text put.now) }
{
    let question = &put.question;
    append_text(block, "question", QuestionKind::of(question).word())?;
    append_text(block, "code", question.code().text())?;
    append_text(block, "serial", serial_of(&question.pack()))
}

#[tactic(auto, unfolding(crate::specs::Rows::state_text))]
fn append_state(block: &mut Vec<u8>, alert: &FlaggedAlert) -> Result<(), AllocError>
    ensures { OnOk result (block.new.items ≡ block.old.items ++ rows.state_text alert.now) }
{
    append_text(block, "cause", cause_word(alert.cause))?;
    append_text(block, "hint", hint_text(alert.hint))?;
    append_text(block, "state", case_word(&alert.case))
}

#[tactic(auto, unfolding(crate::specs::Rows::house_text))]
fn append_house(block: &mut Vec<u8>, put: &Put) -> Result<(), AllocError>
    ensures { OnOk result (block.new.items ≡ block.old.items ++ rows.house_text put.now) }
{
    append_text(block, "user", put.user.text())?;
    append_text(block, "role", role_word(put.actor.role))?;
    append_text(block, "authorisation", put.actor.authorisation.text())?;
    append_text(block, "premises", put.actor.premises.text())
}

/// The serial number of a pack, if there is one.
pub(crate) fn serial_of(pack: &Option<Pack>) -> &str
    ensures { result.now ≡ rows.serial_of pack.now }
{
    match pack {
        Some(pack) => pack.serial.text(),
        None => "",
    }
}

/// The word of a hint, if there is one.
pub(crate) fn hint_text(hint: Option<Hint>) -> &'static str
    ensures { result.now ≡ rows.hint_text hint }
{
    match hint {
        Some(hint) => hint.word(),
        None => "",
    }
}

/// The word of the state of a case.
pub(crate) fn case_word(case: &Case) -> &'static str
    ensures { result.now ≡ rows.case_word case.now }
{
    match case {
        Case::Open => "OPEN",
        Case::Taken(_) => "TAKEN",
        Case::Closed(_) => "CLOSED",
        Case::Confirmed(_) => "CONFIRMED",
    }
}
