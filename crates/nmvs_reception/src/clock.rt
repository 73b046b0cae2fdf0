//! Clocks.
ghost use Rattle.std.specs.Prelude.{◌≡◌, ◌+◌, ℕ, ℤ, ◌∷◌, length, pos, IfSome};

use boxcar::tag::{Names, Tag};
use nmvs_identifier::Moment;
use std::time::SystemTime;

/// A clock. Contracts see how often it was asked, and the seconds that it gave last.
pub trait Clock {
    ghost asked: { Self → ℕ };

    ghost gave: { Self → ℤ };

    /// The seconds since 1970-01-01 00:00:00 UTC.
    fn seconds(&mut self) -> i64
        ensures asked { asked self.new ≡ asked self.old + 1 }
        ensures gave { gave self.new ≡ result };
}

/// The clock of the program: the system's, or a clock that stands still.
#[derive(Drop)]
pub struct ProgramClock<'a, R: std::rt::Clock> {
    rt: &'a R,
    still: Option<Moment>,
    gave: i64,
    asked: Tag,
}

impl<'a, R: std::rt::Clock> ProgramClock<'a, R> {
    /// The system's clock, or a clock that stands still at this moment.
    pub fn new(rt: &'a R, still: Option<Moment>) -> ProgramClock<'a, R>
        ensures still { result.still ≡ still }
        ensures asked { length result.asked.numbers ≡ 0 }
        ensures gave { result.gave ≡ pos 0 }
    {
        ProgramClock {
            rt,
            still,
            gave: 0,
            asked: Tag::empty(),
        }
    }

    /// The seconds of the system's clock, or -1 if it cannot be read or stands before 1970.
    fn system_seconds(&self) -> i64 {
        let Ok(now) = SystemTime::now(self.rt) else {
            return -1;
        };
        match now.duration_since(SystemTime::UNIX_EPOCH) {
            Ok(passed) => i64::try_from(passed.as_secs()).unwrap_or(-1),
            Err(_) => -1,
        }
    }
}

/// Adds one number for each call of a clock.
pub(crate) struct OneMore;

impl Names<Tag> for OneMore {
    ghost numbers = { λ tag. 0 ∷ tag.numbers };
}

impl<'a, R: std::rt::Clock> Clock for ProgramClock<'a, R> {
    ghost asked = { λ clock. length clock.asked.numbers };

    ghost gave = { λ clock. clock.gave };

    /// A clock that stands still gives its moment at each call.
    fn seconds(&mut self) -> i64
        ensures asked { length self.new.asked.numbers ≡ length self.old.asked.numbers + 1 }
        ensures gave { self.new.gave ≡ result }
        ensures still { IfSome self.old.still (λ moment. result ≡ pos moment) }
        ensures kept { self.new.still ≡ self.old.still }
    {
        self.asked = Tag::of::<Tag, OneMore>(&self.asked);
        self.gave = match self.still {
            Some(moment) => moment.seconds(),
            None => self.system_seconds(),
        };
        self.gave
    }
}
