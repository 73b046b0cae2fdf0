//! The reports of the system on the process.
use libc::types::rlimit;
use nmvs_metrics::{SystemReading, uptime};
use std::fs::File;
use std::os::unix::fs::FileExt;
use std::rt::Files;
use std::time::Duration;
use std::{fs, str};

/// The file that reports how much memory the process has (Linux, proc(5)).
const MEMORY: &str = "/proc/self/statm";

/// The folder of the files that the process has open (Linux, proc(5)). Since Linux 6.2 its size is their number.
const OPEN_FILES: &str = "/proc/self/fd";

/// The bytes of a page of memory, as the kernel counts.
const PAGE_SIZE: u64 = 4_096;

/// The files by which the system reports on the process, as far as there are any.
#[derive(Drop)]
pub(crate) struct ProcessFiles {
    memory: Option<File>,
    open_files: Option<File>,
}

impl ProcessFiles {
    /// Opens them.
    pub(crate) fn open<R: Files<File = File>>(rt: &R) -> ProcessFiles {
        let memory = fs::open(rt, MEMORY).ok();
        let open_files = fs::open(rt, OPEN_FILES).ok();
        ProcessFiles { memory, open_files }
    }

    /// The values that the system reports now.
    pub(crate) fn read(&self) -> SystemReading {
        SystemReading {
            uptime: uptime().unwrap_or(Duration::ZERO),
            memory: self.memory.as_ref().and_then(|file| resident(file)),
            open_files: self.open_files.as_ref().and_then(|folder| size(folder)),
            most_files: most_files(),
        }
    }
}

/// How many bytes of memory the process has, if the system reports it.
fn resident(memory: &File) -> Option<u64> {
    let mut buffer = [0; 128];
    let count = memory.read_at(&mut buffer, 0).ok()?;
    resident_in(str::from_utf8(buffer.get(..count)?).ok()?)
}

/// How many bytes of memory a process has, by the text of its `/proc/PID/statm` (Linux, proc(5)): its second number counts
/// pages.
pub fn resident_in(text: &str) -> Option<u64> {
    let pages: u64 = text.split_whitespace().nth(1)?.parse().ok()?;
    pages.checked_mul(PAGE_SIZE)
}

/// The size of a folder, if it has one.
fn size(folder: &File) -> Option<u64> {
    match folder.metadata().ok()?.len() {
        0 => None,
        size => Some(size),
    }
}

/// How many files the process may have open, sockets among them, if the system reports it.
pub fn most_files() -> Option<u64> {
    let mut limit = rlimit {
        rlim_cur: 0,
        rlim_max: 0,
    };
    match libc::getrlimit(libc::RLIMIT_NOFILE, &mut limit) {
        0 => Some(limit.rlim_cur),
        _ => None,
    }
}
