ghost use Rattle.std.specs.Prelude.{◌≡◌, Some, None};

use nmvs_directory::{Naming, Notice};
use std::marker::Model;
use std::sync::{Mutex, Wait};

/// The lock under which all who ask find the latest notice of a directory. Contracts see the list of changes of the
/// notice that was shown here last, if one was.
#[derive(Drop)]
pub struct Latest<'l, J: Naming, R: Wait> {
    rt: &'l R,
    lock: &'l Mutex<Notice<J>>,
    // For contracts alone, which cannot see what lies under a lock.
    shown: Option<Notice<J>>,
}

impl<'l, J: Naming, R: Wait> Model for Latest<'l, J, R> {
    ghost use Rattle.std.specs.Prelude.{List, Option};
    ghost use Rattle.nmvs_directory.specs.declared.change.Change.{Change};

    ghost Value = { Option (List Change) };

    ghost view = { λ l. l.shown };
}

impl<'l, J: Naming, R: Wait> Latest<'l, J, R> {
    /// Shows notices under this lock.
    pub fn new(rt: &'l R, lock: &'l Mutex<Notice<J>>) -> Latest<'l, J, R>
        ensures { result ≡ None }
    {
        Latest {
            rt,
            lock,
            shown: None,
        }
    }

    /// Shows a notice in place of the earlier one. It waits for the lock, and releases it.
    pub fn show(&mut self, notice: Notice<J>)
        ensures { self.new ≡ Some notice }
    {
        self.shown = Some(notice.again());
        *self.lock.lock(self.rt) = notice;
    }
}
