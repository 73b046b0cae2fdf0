//! Flagged alerts as rows of CSV.
ghost use Rattle.std.specs.Prelude.{◌≡◌, ◌++◌, OnOk, map};
ghost use Rattle.csv.specs.Writing.{default_writer, row_text};

use crate::FlaggedAlert;
use crate::row::{case_word, hint_text, serial_of};
use csv::WriterBuilder;
use jiff::Timestamp;
use jiff::tz::Offset;
use nmvs_identifier::Moment;
use nmvs_words::{QuestionKind, cause_word, role_word};
use std::alloc::{AllocError, Global};

/// The columns.
const COLUMNS: [&[u8]; 8] = [
    b"alert",
    b"moment",
    b"question",
    b"code",
    b"serial",
    b"cause",
    b"hint",
    b"state",
];

/// Those of the house, which come behind the others.
const HOUSE_COLUMNS: [&[u8]; 4] = [b"user", b"role", b"authorisation", b"premises"];

/// Puts the header at the end of a block.
pub(crate) fn append_header(
    alloc: Global,
    block: &mut Vec<u8>,
    with_house: bool,
) -> Result<(), AllocError> {
    if with_house {
        append_cells(alloc, block, &COLUMNS, &HOUSE_COLUMNS)
    } else {
        append_cells(alloc, block, &COLUMNS, &[])
    }
}

/// Puts the row of an alert at the end of a block.
pub(crate) fn append_alert_row(
    alloc: Global,
    block: &mut Vec<u8>,
    alert: &FlaggedAlert,
    with_house: bool,
) -> Result<(), AllocError> {
    let put = alert.entry.put;
    let name = alert.name;
    let name = format!(in alloc; "{name}")?;
    let moment = moment_text(alloc, put.moment)?;
    let code = put.question.code();
    let pack = put.question.pack();
    let front = [
        name.as_bytes(),
        moment.as_bytes(),
        QuestionKind::of(&put.question).word().as_bytes(),
        code.text().as_bytes(),
        serial_of(&pack).as_bytes(),
        cause_word(alert.cause).as_bytes(),
        hint_text(alert.hint).as_bytes(),
        case_word(&alert.case).as_bytes(),
    ];
    if !with_house {
        return append_cells(alloc, block, &front, &[]);
    }
    let house = [
        put.user.text().as_bytes(),
        role_word(put.actor.role).as_bytes(),
        put.actor.authorisation.text().as_bytes(),
        put.actor.premises.text().as_bytes(),
    ];
    append_cells(alloc, block, &front, &house)
}

/// The text of a moment, by UTC: `2026-01-01 00:00:00`.
fn moment_text(alloc: Global, moment: Moment) -> Result<String, AllocError> {
    match Timestamp::from_second(moment.seconds()) {
        Ok(timestamp) => {
            let at = Offset::UTC.to_datetime(timestamp);
            let (date, time) = (at.date(), at.time());
            format!(in alloc; "{date} {time}")
        }
        Err(_) => Ok(String::new(alloc)),
    }
}

/// Puts a row at the end of a block, with its LF: the cells of both lists, one list after the other.
fn append_cells(
    alloc: Global,
    block: &mut Vec<u8>,
    front: &[&[u8]],
    behind: &[&[u8]],
) -> Result<(), AllocError>
    ensures { OnOk result (block.new.items ≡ block.old.items
        ++ row_text default_writer (map (λ c. c.now) front.now ++ map (λ c. c.now) behind.now)) }
{
    let mut cells: Vec<&[u8]> = Vec::new(alloc);
    cells.extend_from_slice(front)?;
    cells.extend_from_slice(behind)?;
    let mut writer = WriterBuilder::new().from_writer(Vec::new(alloc));
    match writer.write_fields(&cells) {
        Ok(()) => {}
        Err(_) => return Err(AllocError),
    }
    match writer.into_inner() {
        Ok(text) => block.extend_from_slice(&text),
        Err(_) => Err(AllocError),
    }
}
