//! The latest notice of the directory, as a desk reads it.
ghost use Rattle.std.specs.Prelude.{◌≡◌, ◌+◌, length};

use crate::clock::OneMore;
use boxcar::tag::Tag;
use nmvs_directory::{Naming, Notice};
use std::sync::{Mutex, Wait};

/// The lock of the latest notice, and the notice that was read last. Contracts see this notice, and how often it was read. No
/// contract can say what lies under a lock: that `read` takes the notice from there, stands in its one line.
#[derive(Drop)]
pub(crate) struct LatestNotice<'r, J: Naming> {
    lock: &'r Mutex<Notice<J>>,
    pub(crate) last: Notice<J>,
    pub(crate) reads: Tag,
}

impl<'r, J: Naming> LatestNotice<'r, J> {
    /// The notice that lies under this lock now. No later read is counted yet. It waits for the lock.
    pub(crate) fn under<R: Wait>(rt: &R, lock: &'r Mutex<Notice<J>>) -> LatestNotice<'r, J>
        ensures { length result.reads.numbers ≡ 0 }
    {
        let last = lock.lock(rt).again();
        LatestNotice {
            lock,
            last,
            reads: Tag::empty(),
        }
    }

    /// Reads the notice that lies under the lock now. It waits for the lock, and lets it go.
    pub(crate) fn read<R: Wait>(&mut self, rt: &R)
        ensures { length self.new.reads.numbers ≡ length self.old.reads.numbers + 1 }
    {
        self.last = self.lock.lock(rt).again();
        self.reads = Tag::of::<Tag, OneMore>(&self.reads);
    }
}
