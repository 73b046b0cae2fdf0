//! Answers as CSV.
use crate::alert::alert_of;
use crate::alert_rows::{append_alert_row, append_header};
use crate::flagged::Flagged;
use crate::inspected::{GatheredRows, Inspected, write_rows};
use crate::selection::select;
use crate::viewing::sees_houses;
use crate::{AlertFilter, Status};
use nmvs_cases::Author;
use nmvs_inspect::AnswerFault;
use nmvs_shard::Shard;
use std::alloc::{AllocError, Allocator, Global};

/// The most bytes of rows in an answer (own): 16 MiB.
const MOST_BYTES: usize = 16_777_216;

/// Puts the rows of what is inspected at the end of a block.
pub(crate) fn append_rows<A: Allocator>(
    alloc: Global,
    block: &mut Vec<u8>,
    shard: &Shard<A>,
    inspected: &Inspected<'_>,
) -> Result<Status, AllocError> {
    let mut rows = GatheredRows::new(alloc, MOST_BYTES);
    match write_rows(alloc, shard, inspected, &mut rows) {
        Ok(()) => {
            block.extend_from_slice(&rows.bytes)?;
            Ok(Status::Found)
        }
        Err(AnswerFault::Memory) => Err(AllocError),
        Err(AnswerFault::Write) => Ok(Status::TooLong),
    }
}

/// Puts the alerts that a reader asks for and sees at the end of a block, as rows of CSV.
pub(crate) fn append_alert_rows<A: Allocator>(
    alloc: Global,
    block: &mut Vec<u8>,
    shard: &Shard<A>,
    flagged: &[Flagged],
    author: &Author,
    filter: &AlertFilter,
) -> Result<Status, AllocError> {
    let with_house = sees_houses(author);
    let mut rows = Vec::new(alloc);
    append_header(alloc, &mut rows, with_house)?;
    for found in select(alloc, shard, flagged, author, filter)?.iter() {
        if let Some(alert) = alert_of(shard, found) {
            append_alert_row(alloc, &mut rows, &alert, with_house)?;
        }
        if rows.len() > MOST_BYTES {
            return Ok(Status::TooLong);
        }
    }
    block.extend_from_slice(&rows)?;
    Ok(Status::Found)
}
