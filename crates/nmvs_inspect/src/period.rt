//! The earliest and the latest moment of a trail.
ghost use Rattle.std.specs.Prelude.{◌≡◌, ◌*◌, pos, Some, IfOk, string_bytes};
ghost use Rattle.nmvs_inspect.specs.Period as spec;

use crate::rows::{date_and_time, moment_text};
use jiff::civil::DateTime;
use nmvs_identifier::Moment;
use nmvs_shard::Shard;
use std::alloc::{AllocError, Allocator, Global};

/// The earliest and the latest moment of entries.
#[derive(Clone, Copy)]
pub(crate) struct Period {
    pub first: Moment,
    pub last: Moment,
}

/// The line with the earliest and the latest moment of a shard's trail, by UTC, or nothing if the trail is empty.
///
/// # Errors
///
/// There is no memory for the line.
pub fn period_line<A: Allocator>(alloc: Global, shard: &Shard<A>) -> Result<String, AllocError>
    ensures { IfOk result (λ text. spec.IsLineOf (spec.period_of shard.now) (string_bytes text)) }
{
    match period_of(shard) {
        None => Ok(String::new(alloc)),
        Some(period) => line(
            alloc,
            date_and_time(period.first),
            date_and_time(period.last),
        ),
    }
}

fn line(alloc: Global, first: DateTime, last: DateTime) -> Result<String, AllocError>
    ensures { IfOk result (λ text. string_bytes text ≡ spec.line first last) }
{
    let first = moment_text(alloc, first)?;
    let last = moment_text(alloc, last)?;
    format!(in alloc; "From {first} to {last}\n")
}

fn period_of<A: Allocator>(shard: &Shard<A>) -> Option<Period>
    ensures { result ≡ spec.period_of shard.now }
{
    let mut period = None;
    for place in 0..shard.len() {
        let entry = shard.entry_at(place).unwrap();
        period = Some(with_moment(&period, entry.put.moment));
    }
    period
}

/// A period with one more moment.
fn with_moment(period: &Option<Period>, moment: Moment) -> Period
    ensures { Some result ≡ spec.with_moment period.now moment }
{
    match period {
        None => Period {
            first: moment,
            last: moment,
        },
        Some(period) => Period {
            first: if seconds(moment) < seconds(period.first) {
                moment
            } else {
                period.first
            },
            last: if seconds(period.last) < seconds(moment) {
                moment
            } else {
                period.last
            },
        },
    }
}

fn seconds(moment: Moment) -> u64
    ensures { result ≡ moment }
{
    moment.seconds() as u64
}
