//! Watches the file of the log while a server runs. One that goes away is a failed log.
use log::{Log, error};
use std::fs::File;
use std::os::unix::fs::MetadataExt;
use std::rt::Clock;
use std::sync::atomic::{AtomicBool, Ordering};
use std::sync::{Condvar, CondvarTimeouts, Mutex, Wait};
use std::time::Duration;

/// The seconds between two looks at the file (own).
const PAUSE: u64 = 1;

/// A watch over the file of a log. (It looks at an open file and at no path: in this toolchain a thread may not rest on `Files`.)
#[derive(Drop)]
pub(crate) struct Watch {
    /// The file, if there is one to watch.
    file: Option<File>,
    /// Whether the watch is over.
    is_over: Mutex<bool>,
    /// Notifies that it is.
    ended: Condvar,
    /// Whether the file went away.
    is_lost: AtomicBool,
}

impl Watch {
    /// A watch over this file, if there is one.
    pub(crate) fn over(file: Option<File>) -> Watch {
        Watch {
            file,
            is_over: Mutex::new(false),
            ended: Condvar::new(),
            is_lost: AtomicBool::new(false),
        }
    }

    /// Ends the watch.
    pub(crate) fn end<R: Wait>(&self, rt: &R) {
        *self.is_over.lock(rt) = true;
        self.ended.notify_all();
    }

    /// Whether the file went away.
    pub(crate) fn is_lost(&self) -> bool {
        self.is_lost.load(Ordering::SeqCst)
    }

    /// Watches until the watch is over, or the file went away, which it logs: it was deleted, replaced or cut. It returns
    /// whether that happened.
    pub(crate) fn watch<R: Wait + Clock + Log>(&self, rt: &R) -> bool {
        let Some(file) = &self.file else {
            return false;
        };
        let is_lost = self.sees_loss(rt, file);
        if is_lost {
            self.is_lost.store(true, Ordering::SeqCst);
            error!(rt; "the file of the log was deleted, replaced or cut");
        }
        is_lost
    }

    /// Looks at the file until the watch is over. It returns whether the file has no name any more, or lost bytes.
    fn sees_loss<R: Wait + Clock>(&self, rt: &R, file: &File) -> bool {
        let mut length = 0;
        for _ in rt.forever() {
            if let Ok(found) = file.metadata() {
                if found.nlink() == 0 || found.len() < length {
                    return true;
                }
                length = found.len();
            }
            if self.pauses(rt) {
                return false;
            }
        }
        unreachable!()
    }

    /// Whether the watch is over.
    pub(crate) fn is_over<R: Wait>(&self, rt: &R) -> bool {
        *self.is_over.lock(rt)
    }

    /// Waits for a while. It returns whether the watch is over.
    pub(crate) fn pauses<R: Wait + Clock>(&self, rt: &R) -> bool {
        let is_over = self.is_over.lock(rt);
        if *is_over {
            return true;
        }
        let pause = Duration::from_secs(PAUSE);
        let is_over = self.ended.wait_timeout(rt, is_over, pause).0;
        *is_over
    }
}
