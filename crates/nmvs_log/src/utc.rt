//! Moments as people read them.
use jiff::Timestamp;
use jiff::civil::DateTime;
use jiff::tz::Offset;
use std::fmt;
use std::fmt::{Display, Formatter};

/// A moment, in seconds since 1970-01-01 00:00:00 UTC. It shows as `2026-11-27T10:00:00Z` (ISO 8601), or as `-` if it has no
/// date.
#[derive(Clone, Copy)]
pub struct Utc(pub i64);

impl Display for Utc {
    fn fmt<W: fmt::Write>(&self, f: &mut Formatter<W>) -> fmt::Result {
        match civil(self.0) {
            Some(civil) => write!(f, "{civil}Z"),
            None => f.write_str("-"),
        }
    }
}

/// Date and time of day of this many seconds since 1970, in UTC.
pub(crate) fn civil(seconds: i64) -> Option<DateTime> {
    let moment = Timestamp::from_second(seconds).ok()?;
    Some(Offset::UTC.to_datetime(moment))
}
