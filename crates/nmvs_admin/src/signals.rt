//! Signals that ask the program to end.
//!
//! The toolchain handles no signal. A signal that the process does not block ends it at once. A blocked one waits, and the
//! system reports it in `/proc/self/status` (Linux, proc(5)). A process blocks from its start the signals that its parent
//! blocks, as with `env --block-signal=TERM`.
use std::fs;
use std::fs::File;
use std::os::unix::fs::FileExt;
use std::rt::Files;
use std::time::Duration;

/// The system's report of the process.
const STATUS: &str = "/proc/self/status";

/// The most bytes of the report that are read (own). It has 1,500 bytes, and some more for each group of its user.
const LONGEST_STATUS: usize = 8_192;

/// The lines of the report that list the signals which the process blocks, and those which wait for it.
const BLOCKED: &str = "SigBlk:";

const WAITING: &str = "ShdPnd:";

/// SIGINT and SIGTERM, each the bit of its number less one.
const TO_END: u64 = 0x4002;

/// The milliseconds between two looks for a signal (own).
const PAUSE: u64 = 200;

/// The signals that ask the process to end, if it blocks one of them.
#[derive(Drop)]
pub(crate) struct Signals {
    /// The report, until a signal was found in it.
    status: Option<File>,
}

impl Signals {
    /// No signal is looked for.
    pub(crate) fn none() -> Signals {
        Signals { status: None }
    }

    /// The signals of this process. None is looked for if it blocks none, or the system makes no report.
    pub(crate) fn of_process<R: Files<File = File>>(rt: &R) -> Signals {
        let Ok(status) = fs::open(rt, STATUS) else {
            return Signals::none();
        };
        if reports(&status, BLOCKED) {
            Signals {
                status: Some(status),
            }
        } else {
            Signals::none()
        }
    }

    /// The longest wait for anything else until the next look for a signal.
    pub(crate) fn pause(&self) -> Option<Duration> {
        match &self.status {
            Some(_) => Some(Duration::from_millis(PAUSE)),
            None => None,
        }
    }

    /// Whether a signal came. The first one is found once, and no other is looked for after it.
    pub(crate) fn take(&mut self) -> bool {
        let has_come = match &self.status {
            Some(status) => reports(status, WAITING),
            None => false,
        };
        if has_come {
            self.status = None;
        }
        has_come
    }
}

/// Whether the report has a signal to end in this line.
fn reports(status: &File, line: &str) -> bool {
    let mut buffer = [0; LONGEST_STATUS];
    let Ok(count) = status.read_at(&mut buffer, 0) else {
        return false;
    };
    let Some(bytes) = buffer.get(..count) else {
        return false;
    };
    str::from_utf8(bytes).is_ok_and(|report| has_end(report, line))
}

/// Whether a report of a process has a signal to end in this line, which is hexadecimal.
pub(crate) fn has_end(report: &str, line: &str) -> bool {
    for text in report.lines() {
        if let Some(digits) = text.strip_prefix(line) {
            return match u64::from_str_radix(digits.trim(), 16) {
                Ok(signals) => signals & TO_END != 0,
                Err(_) => false,
            };
        }
    }
    false
}
