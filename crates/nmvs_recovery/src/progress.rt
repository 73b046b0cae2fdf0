//! The progress of a long work, for the operator.
use log::{Level, Log, info, log_enabled};
use memchr::memchr_iter;
use nmvs_log::LogFormat;
use std::io;
use std::io::{Read, Write};
use std::rt::Clock;
use std::sync::atomic::{AtomicU64, Ordering};
use std::time::Instant;

/// The milliseconds without a report, at the beginning and between two reports (own).
const PAUSE: u64 = 2_000;

/// The size of the whole work.
#[derive(Clone, Copy)]
pub enum Whole {
    Bytes(u64),
    Lines(u64),
}

/// The place of the reports.
#[derive(Clone, Copy, PartialEq, Eq)]
enum Place {
    /// The log, with a line for each report.
    Log,
    /// A terminal, where one line is written again and again.
    Terminal,
}

impl Place {
    /// The terminal of standard error, if there is one and the log is a text. Else the log.
    fn of_log(format: LogFormat) -> Place {
        if format == LogFormat::Text && libc::isatty(libc::STDERR_FILENO) == 1 {
            Place::Terminal
        } else {
            Place::Log
        }
    }
}

/// The progress of a work, by one thread or several.
#[derive(Drop)]
pub struct Progress<'p, R> {
    rt: &'p R,
    /// The word of the work.
    work: &'static str,
    whole: Whole,
    place: Place,
    /// The time at which it began, if the clock gave one.
    begun: Option<Instant>,
    bytes: AtomicU64,
    lines: AtomicU64,
    /// The milliseconds after which it reports next.
    due: AtomicU64,
}

impl<'p, R: Log + Clock + Eprint> Progress<'p, R> {
    /// A work that begins now. Its reports go to the terminal of standard error, if there is one and this format of the
    /// log is text. Otherwise they go to the log.
    pub fn begin(
        rt: &'p R,
        work: &'static str,
        whole: Whole,
        format: LogFormat,
    ) -> Progress<'p, R> {
        Progress {
            rt,
            work,
            whole,
            place: Place::of_log(format),
            begun: Instant::now(rt).ok(),
            bytes: AtomicU64::new(0),
            lines: AtomicU64::new(0),
            due: AtomicU64::new(PAUSE),
        }
    }

    /// Notes these bytes as done, and reports the progress if it is time.
    fn note(&self, bytes: &[u8]) {
        self.bytes.fetch_add(bytes.len() as u64, Ordering::SeqCst);
        let lines = memchr_iter(b'\n', bytes).count() as u64;
        self.lines.fetch_add(lines, Ordering::SeqCst);
        let (passed, due) = (self.passed(), self.due.load(Ordering::SeqCst));
        if passed < due {
            return;
        }
        let next = passed.saturating_add(PAUSE);
        // One of several threads reports it.
        let is_first = self
            .due
            .compare_exchange(due, next, Ordering::SeqCst, Ordering::SeqCst)
            .is_ok();
        if is_first {
            self.tell(passed);
        }
    }

    /// The milliseconds since the work began.
    fn passed(&self) -> u64 {
        match (self.begun, Instant::now(self.rt)) {
            (Some(begun), Ok(now)) => {
                u64::try_from(now.duration_since(begun).as_millis()).unwrap_or(u64::MAX)
            }
            _ => 0,
        }
    }

    fn tell(&self, passed: u64) {
        let lines = self.lines.load(Ordering::SeqCst);
        let (done, whole) = match self.whole {
            Whole::Bytes(whole) => (self.bytes.load(Ordering::SeqCst), whole),
            Whole::Lines(whole) => (lines, whole),
        };
        let percent = share(done, 100, whole);
        let rate = share(lines, 1_000, passed);
        let left = share(whole.saturating_sub(done), passed, done) / 1_000;
        let work = self.work;
        match self.place {
            Place::Log => {
                info!(self.rt; percent, lines, lines_a_second = rate, seconds_left = left; "{work}");
            }
            Place::Terminal if log_enabled!(self.rt; Level::Info) => {
                let _ = eprint!(self.rt;
                    "\r{work}: {percent} %, {lines} lines, {rate} a second, {left} s left\u{1b}[K"
                );
            }
            Place::Terminal => {}
        }
    }

    /// Ends the work: it logs the number of lines that were done, and the milliseconds.
    pub fn end(&self) {
        let (passed, work) = (self.passed(), self.work);
        let lines = self.lines.load(Ordering::SeqCst);
        if self.place == Place::Terminal && passed >= PAUSE && log_enabled!(self.rt; Level::Info) {
            let _ = eprint!(self.rt; "\r\u{1b}[K");
        }
        info!(self.rt; lines, milliseconds = passed; "{work} done");
    }
}

/// The done share of a whole, in this number of parts.
fn share(done: u64, parts: u64, whole: u64) -> u64 {
    done.saturating_mul(parts).checked_div(whole).unwrap_or(0)
}

/// A file that is read or written from its beginning to its end. It reports its progress, and logs the reason of a failure.
#[derive(Drop)]
pub struct Watched<'w, 'p, R, F> {
    file: F,
    path: &'w str,
    progress: &'w Progress<'p, R>,
}

impl<'w, 'p, R, F> Watched<'w, 'p, R, F> {
    /// This file of this path, whose progress is this.
    pub fn new(file: F, path: &'w str, progress: &'w Progress<'p, R>) -> Watched<'w, 'p, R, F> {
        Watched {
            file,
            path,
            progress,
        }
    }

    pub(crate) fn into_file(self) -> F
    where
        F: Drop,
    {
        self.file
    }
}

impl<'w, 'p, R: Log + Clock + Eprint, F: Read> Read for Watched<'w, 'p, R, F> {
    fn read(&mut self, buffer: &mut [u8]) -> io::Result<usize> {
        match self.file.read(buffer) {
            Ok(count) => {
                self.progress.note(&buffer[..count]);
                Ok(count)
            }
            Err(error) => {
                let path = self.path;
                log::error!(self.progress.rt; "cannot read {path}: {error}");
                Err(error)
            }
        }
    }
}

impl<'w, 'p, R: Log + Clock + Eprint, F: Write> Write for Watched<'w, 'p, R, F> {
    fn write(&mut self, bytes: &[u8]) -> io::Result<usize> {
        match self.file.write(bytes) {
            Ok(count) => {
                self.progress.note(&bytes[..count]);
                Ok(count)
            }
            Err(error) => {
                let path = self.path;
                log::error!(self.progress.rt; "cannot write {path}: {error}");
                Err(error)
            }
        }
    }

    fn flush(&mut self) -> io::Result<()> {
        self.file.flush()
    }
}
