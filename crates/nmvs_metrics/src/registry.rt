//! The counts of a running server: the families of its page, and their counters.
ghost use Rattle.std.specs.Prelude.{◌≡◌, map};
ghost use Rattle.nmvs_metrics.specs.Families.{row_of};
ghost use Rattle.nmvs_metrics.specs.Families as specs;

use crate::counters::Counters;
use crate::kinds::{Rows, place_of_cause, place_of_refusal, place_of_reply};
use crate::readiness::{Readiness, readiness_of};
use crate::times::Times;
use crate::uptime;
use nmvs_messages::{Content, FAULTS, Fault, Released};
use nmvs_rules::{Question, Reply};
use nmvs_words::{CAUSES, QUESTIONS, QuestionKind, REFUSALS, REPLIES, ReplyKind};
use std::alloc::{AllocError, Global};
use std::sync::atomic::{AtomicU64, Ordering};
use std::time::Duration;

/// A counter of the server.
#[derive(Clone, Copy)]
pub(crate) enum Count {
    /// 1 if it listens.
    Ready,
    /// 1 if it ends.
    Ends,
    Sessions,
    Enrolled,
    Suspended,
    /// The start of the metrics, in seconds since 1970, or 0 if no clock gave it.
    Started,
    ClockSteps,
    /// 1 if the log failed.
    Failed,
    /// When the write or sync of the log that is under way began, in nanoseconds since the machine runs, or 0 if none is.
    WriteBegan,
    /// 1 if the server is one of several machines.
    Shared,
    /// 1 if it follows another.
    Standby,
    /// 1 if the server follows and the engine is silent.
    Silent,
    /// How many entries it has read of the log as one that follows.
    Followed,
    /// How many blocks of the log its copy has on the disk.
    Copied,
}

/// How many counters the server has.
const COUNTS: usize = Count::Copied as usize + 1;

// Where a worker's counters stand.

/// Questions, by their kind and the kind of their reply.
const ANSWERED: usize = 0;

const REFUSED: usize = ANSWERED + QUESTIONS.len() * REPLIES.len();

/// Alerts that were flagged, by cause.
const FLAGGED: usize = REFUSED + REFUSALS.len();

const FAULTED: usize = FLAGGED + CAUSES.len();

const REPORTS: usize = FAULTED + FAULTS.len();

const ACCEPTED: usize = REPORTS + 1;

const OPEN: usize = ACCEPTED + 1;

const EVICTED: usize = OPEN + 1;

/// How many bytes the buffers of the worker's connections take.
const MEMORY: usize = EVICTED + 1;

/// How many entries of each shard were confirmed when the worker last released answers that waited for them.
pub(crate) const CONFIRMED: usize = MEMORY + 1;

/// The samples of one name on the page.
#[derive(Clone, Copy)]
pub struct Family {
    pub name: &'static str,
    pub kind: &'static str,
    pub help: &'static str,
    /// The names of its labels. The second is empty if there is one, and both are if there is none.
    pub labels: (&'static str, &'static str),
    pub(crate) source: Source,
}

/// The source of a family's values.
#[derive(Clone, Copy)]
pub(crate) enum Source {
    /// 1, with these two words.
    Build(&'static str, &'static str),
    /// This counter of the server.
    Server(Count),
    /// The same, if it is not 0.
    Given(Count),
    /// The same, if the server has a log.
    Log(Count),
    /// The same, if the server is one of several machines.
    Shared(Count),
    /// The time since the nanosecond in this counter of the server, or 0 if the counter is 0, if the server has a log.
    Since(Count),
    /// The memory of the process, if the system reports it.
    Memory,
    /// How many files it has open, if the system reports it.
    OpenFiles,
    /// How many it may have open, if the system reports it.
    MostFiles,
    /// These counters of the server, each with its word.
    States(&'static [(Count, &'static str)]),
    /// The workers' counters at this place together.
    Total(usize),
    /// Those from this place on, each with the word of its row.
    Words(usize, Rows),
    /// The same with the words of two rows, without those at 0.
    Pairs(usize, Rows, Rows),
    /// Each worker's counter at this place.
    Workers(usize),
    Shards(PerShard),
    /// The times from a line to the release of its reply.
    Replies,
    /// The times of the syncs of the log, if the server has one.
    Syncs,
}

/// A count of each shard.
#[derive(Clone, Copy)]
pub(crate) enum PerShard {
    Entries,
    Packs,
    /// The entries that the log has confirmed, if the server has one.
    Confirmed,
    /// Those that it has not, if the server has one.
    Waiting,
}

/// The counters of users by their state.
const USERS: &[(Count, &str)] = &[
    (Count::Enrolled, "enrolled"),
    (Count::Suspended, "suspended"),
];

const FAMILIES: &[Family] = &[
    Family {
        name: "nmvs_build_info",
        kind: "gauge",
        help: "Constant 1, by the version of the program and the toolchain that built it.",
        labels: ("version", "toolchain"),
        source: Source::Build("0.9.0", "rattle logic dac8208d650f15bf"),
    },
    Family {
        name: "nmvs_ready",
        kind: "gauge",
        help: "Whether the server listens, 1 or 0.",
        labels: ("", ""),
        source: Source::Server(Count::Ready),
    },
    Family {
        name: "nmvs_clock_steps_total",
        kind: "counter",
        help: "Steps of the system's clock by more than 2 seconds.",
        labels: ("", ""),
        source: Source::Server(Count::ClockSteps),
    },
    Family {
        name: "process_start_time_seconds",
        kind: "gauge",
        help: "Start time of the process since 1970 in seconds.",
        labels: ("", ""),
        source: Source::Given(Count::Started),
    },
    Family {
        name: "process_resident_memory_bytes",
        kind: "gauge",
        help: "Resident memory size in bytes.",
        labels: ("", ""),
        source: Source::Memory,
    },
    Family {
        name: "process_open_fds",
        kind: "gauge",
        help: "Number of open file descriptors.",
        labels: ("", ""),
        source: Source::OpenFiles,
    },
    Family {
        name: "process_max_fds",
        kind: "gauge",
        help: "Maximum number of open file descriptors.",
        labels: ("", ""),
        source: Source::MostFiles,
    },
    Family {
        name: "nmvs_questions_total",
        kind: "counter",
        help: "Questions that the repository answered, by kind and reply.",
        labels: ("question", "reply"),
        source: Source::Pairs(ANSWERED, Rows::Questions, Rows::Replies),
    },
    Family {
        name: "nmvs_refusals_total",
        kind: "counter",
        help: "Questions that the repository refused, by the word of the refusal.",
        labels: ("refusal", ""),
        source: Source::Words(REFUSED, Rows::Refusals),
    },
    Family {
        name: "nmvs_alerts_flagged_total",
        kind: "counter",
        help: "Alerts that were flagged as potential falsifications, by their cause.",
        labels: ("cause", ""),
        source: Source::Words(FLAGGED, Rows::Causes),
    },
    Family {
        name: "nmvs_reports_total",
        kind: "counter",
        help: "Reports on product codes.",
        labels: ("", ""),
        source: Source::Total(REPORTS),
    },
    Family {
        name: "nmvs_reply_seconds",
        kind: "histogram",
        help: "Seconds from a line to the release of its reply, or more.",
        labels: ("", ""),
        source: Source::Replies,
    },
    Family {
        name: "nmvs_faults_total",
        kind: "counter",
        help: "Lines and connections that were answered with a fault, by its word.",
        labels: ("fault", ""),
        source: Source::Words(FAULTED, Rows::Faults),
    },
    Family {
        name: "nmvs_connections_open",
        kind: "gauge",
        help: "Connections that are open, by worker.",
        labels: ("worker", ""),
        source: Source::Workers(OPEN),
    },
    Family {
        name: "nmvs_connections_total",
        kind: "counter",
        help: "Connections that were accepted, by worker.",
        labels: ("worker", ""),
        source: Source::Workers(ACCEPTED),
    },
    Family {
        name: "nmvs_sessions_total",
        kind: "counter",
        help: "Sessions that have begun in which a line is served.",
        labels: ("", ""),
        source: Source::Server(Count::Sessions),
    },
    Family {
        name: "nmvs_connections_memory_bytes",
        kind: "gauge",
        help: "Memory of the buffers of connections, by worker.",
        labels: ("worker", ""),
        source: Source::Workers(MEMORY),
    },
    Family {
        name: "nmvs_connections_evicted_total",
        kind: "counter",
        help: "Connections that were closed because the buffers of all took too much memory.",
        labels: ("", ""),
        source: Source::Total(EVICTED),
    },
    Family {
        name: "nmvs_users",
        kind: "gauge",
        help: "Users, by state.",
        labels: ("state", ""),
        source: Source::States(USERS),
    },
    Family {
        name: "nmvs_entries",
        kind: "gauge",
        help: "Entries of the audit trail, by shard.",
        labels: ("shard", ""),
        source: Source::Shards(PerShard::Entries),
    },
    Family {
        name: "nmvs_packs",
        kind: "gauge",
        help: "Packs that the repository knows, by shard.",
        labels: ("shard", ""),
        source: Source::Shards(PerShard::Packs),
    },
    Family {
        name: "nmvs_journal_confirmed_entries",
        kind: "gauge",
        help: "Entries that the log has confirmed, by shard.",
        labels: ("shard", ""),
        source: Source::Shards(PerShard::Confirmed),
    },
    Family {
        name: "nmvs_journal_waiting_entries",
        kind: "gauge",
        help: "Entries that the log has not confirmed yet, by shard.",
        labels: ("shard", ""),
        source: Source::Shards(PerShard::Waiting),
    },
    Family {
        name: "nmvs_journal_sync_seconds",
        kind: "histogram",
        help: "Seconds that a sync of the log took.",
        labels: ("", ""),
        source: Source::Syncs,
    },
    Family {
        name: "nmvs_journal_failures_total",
        kind: "counter",
        help: "Failures of the file of the log.",
        labels: ("", ""),
        source: Source::Log(Count::Failed),
    },
    Family {
        name: "nmvs_log_failed",
        kind: "gauge",
        help: "Whether the log failed, 1 or 0.",
        labels: ("", ""),
        source: Source::Log(Count::Failed),
    },
    Family {
        name: "nmvs_log_write_seconds",
        kind: "gauge",
        help: "Seconds that the write or sync of the log that is under way has taken, 0 where none is.",
        labels: ("", ""),
        source: Source::Since(Count::WriteBegan),
    },
    Family {
        name: "nmvs_standby",
        kind: "gauge",
        help: "Whether the server follows that of another machine, 1 or 0.",
        labels: ("", ""),
        source: Source::Shared(Count::Standby),
    },
    Family {
        name: "nmvs_log_following_entries",
        kind: "gauge",
        help: "Entries of the log that the server has read as one that follows.",
        labels: ("", ""),
        source: Source::Shared(Count::Followed),
    },
    Family {
        name: "nmvs_copy_blocks",
        kind: "gauge",
        help: "Blocks of the log that the copy of this machine has on the disk.",
        labels: ("", ""),
        source: Source::Shared(Count::Copied),
    },
];

/// The families, in the order in which the page has them.
pub fn families() -> &'static [Family]
    ensures { map row_of result.now ≡ specs.families }
{
    FAMILIES
}

/// The counters of one worker. No other worker writes to them; the thread that accepts counts connections here too.
#[derive(Drop)]
pub(crate) struct WorkerCounts {
    pub(crate) rows: Counters,
    pub(crate) replies: Times,
    /// How many lines the worker's desk has taken since its last release.
    taken: AtomicU64,
    /// When it took the first of them, in nanoseconds since the machine runs.
    began: AtomicU64,
}

impl WorkerCounts {
    fn new(alloc: Global, shards: usize) -> Result<WorkerCounts, AllocError> {
        let rows = Counters::new(alloc, CONFIRMED.saturating_add(shards))?;
        let replies = Times::new(alloc)?;
        Ok(WorkerCounts {
            rows,
            replies,
            taken: AtomicU64::new(0),
            began: AtomicU64::new(0),
        })
    }
}

/// The counters of this number of workers.
fn workers_counts(
    alloc: Global,
    workers: usize,
    shards: usize,
) -> Result<Vec<WorkerCounts>, AllocError> {
    let mut counts = Vec::with_capacity(alloc, workers)?;
    for _ in 0..workers {
        counts.push(WorkerCounts::new(alloc, shards)?)?;
    }
    Ok(counts)
}

/// The state of a user, by which the metrics count.
#[derive(Clone, Copy)]
pub enum UserState {
    Enrolled,
    Suspended,
}

/// The counters of a running server, from its start on. All its threads share them, and none waits for another; a count
/// beyond 64 bits begins again at 0.
#[derive(Drop)]
pub struct Metrics {
    pub(crate) server: Counters,
    pub(crate) workers: Vec<WorkerCounts>,
    pub(crate) entries: Counters,
    pub(crate) packs: Counters,
    pub(crate) shards: usize,
    pub(crate) syncs: Times,
    pub(crate) has_log: bool,
}

impl Metrics {
    /// Counters at 0, of a server with this number of workers and shards, with a log or without.
    ///
    /// # Errors
    ///
    /// There is no memory for it.
    pub fn new(
        alloc: Global,
        workers: usize,
        shards: usize,
        has_log: bool,
    ) -> Result<Metrics, AllocError> {
        let server = Counters::new(alloc, COUNTS)?;
        let entries = Counters::new(alloc, shards)?;
        let packs = Counters::new(alloc, shards)?;
        let syncs = Times::new(alloc)?;
        let workers = workers_counts(alloc, workers, shards)?;
        Ok(Metrics {
            server,
            workers,
            entries,
            packs,
            shards,
            syncs,
            has_log,
        })
    }

    /// The metrics of the worker of this number. One that the server does not have counts nothing.
    pub fn worker(&self, number: usize) -> WorkerMetrics<'_> {
        WorkerMetrics {
            metrics: self,
            counts: self.workers.get(number),
        }
    }

    /// Notes that the server listens.
    pub fn note_ready(&self) {
        self.server.set(Count::Ready as usize, 1);
    }

    /// Whether the server is ready, when the machine runs for this long.
    pub fn readiness(&self, uptime: Duration) -> Readiness {
        if !self.has_log {
            return readiness_of(self.holds(Count::Ready), false, false, false, 0);
        }
        readiness_of(
            self.holds(Count::Ready),
            self.holds(Count::Standby),
            self.holds(Count::Silent),
            self.holds(Count::Failed),
            self.since(Count::WriteBegan, uptime),
        )
    }

    /// Notes that the server ends.
    pub fn note_end(&self) {
        self.server.set(Count::Ends as usize, 1);
    }

    /// Whether the server ends.
    pub fn has_ended(&self) -> bool {
        self.holds(Count::Ends)
    }

    /// Whether this counter of the server is not 0.
    pub(crate) fn holds(&self, count: Count) -> bool {
        self.server.at(count as usize) != 0
    }

    /// Whether the server is one of several machines.
    pub(crate) fn is_shared(&self) -> bool {
        self.has_log && self.holds(Count::Shared)
    }

    /// How many nanoseconds the machine has run since this counter of the server, or 0 if that is 0.
    pub(crate) fn since(&self, count: Count, uptime: Duration) -> u64 {
        match self.server.at(count as usize) {
            0 => 0,
            began => nanoseconds_of(uptime).saturating_sub(began),
        }
    }

    /// Notes how many entries and packs the shard of this number is opened with.
    pub fn note_opening(&self, shard: usize, entries: u64, packs: u64) {
        self.entries.set(shard, entries);
        self.packs.set(shard, packs);
    }

    /// Notes that the log has confirmed all entries of each shard.
    pub fn note_all_confirmed(&self) {
        let worker = self.worker(0);
        for shard in 0..self.shards {
            worker.note_confirmed(shard, self.entries.at(shard));
        }
    }

    /// Notes how many users are enrolled, and how many suspended.
    pub fn note_users(&self, enrolled: u64, suspended: u64) {
        self.server.set(Count::Enrolled as usize, enrolled);
        self.server.set(Count::Suspended as usize, suspended);
    }

    /// Notes the states of a user before and after a change. An unknown user has none.
    pub fn note_user(&self, before: Option<UserState>, after: Option<UserState>) {
        if let Some(state) = before {
            self.server.subtract_one(count_of(state) as usize);
        }
        if let Some(state) = after {
            self.server.add(count_of(state) as usize, 1);
        }
    }

    /// Notes the start of the metrics: the time since 1970-01-01 00:00:00 UTC.
    pub fn note_start(&self, since_1970: Duration) {
        self.server
            .set(Count::Started as usize, since_1970.as_secs());
    }

    /// Counts a step of the system's clock.
    pub fn note_clock_step(&self) {
        self.server.add(Count::ClockSteps as usize, 1);
    }

    /// Counts a session in which a line is to be served.
    pub fn note_session(&self) {
        self.server.add(Count::Sessions as usize, 1);
    }

    /// Notes that a sync of the log succeeded and took this time.
    pub fn note_sync(&self, time: Duration) {
        self.syncs.add(nanoseconds_of(time), 1);
    }

    /// Notes that a write or sync of the log begins, when the machine runs for this long.
    pub fn note_write(&self, uptime: Duration) {
        self.server
            .set(Count::WriteBegan as usize, nanoseconds_of(uptime).max(1));
    }

    /// Notes that no write or sync of the log is under way any more.
    pub fn note_written(&self) {
        self.server.set(Count::WriteBegan as usize, 0);
    }

    /// Notes whether the server, which is one of several machines, follows another.
    pub fn note_standby(&self, is_standby: bool) {
        self.server.set(Count::Shared as usize, 1);
        self.server
            .set(Count::Standby as usize, u64::from(is_standby));
    }

    /// Notes whether the engine answers a server that follows, or is silent.
    pub fn note_engine(&self, answers: bool) {
        self.server.set(Count::Silent as usize, u64::from(!answers));
    }

    /// Notes how many blocks of the log the copy of this machine has on the disk.
    pub fn note_copied(&self, blocks: u64) {
        self.server.set(Count::Copied as usize, blocks);
    }

    /// Counts entries of the log that the server reads as one that follows.
    pub fn note_followed(&self, entries: u64) {
        self.server.add(Count::Followed as usize, entries);
    }

    /// Notes that the log failed, which it does for good.
    pub fn note_failure(&self) {
        self.server.set(Count::Failed as usize, 1);
    }
}

/// The counter of users in this state.
fn count_of(state: UserState) -> Count {
    match state {
        UserState::Enrolled => Count::Enrolled,
        UserState::Suspended => Count::Suspended,
    }
}

/// The nanoseconds of a time, as far as 64 bits hold them.
fn nanoseconds_of(time: Duration) -> u64 {
    u64::try_from(time.as_nanos()).unwrap_or(u64::MAX)
}

/// How many nanoseconds the machine runs, or 0 if its clock cannot be read.
fn now() -> u64 {
    nanoseconds_of(uptime().unwrap_or(Duration::ZERO))
}

/// The metrics of one worker.
#[derive(Clone, Copy)]
pub struct WorkerMetrics<'p> {
    metrics: &'p Metrics,
    counts: Option<&'p WorkerCounts>,
}

impl<'p> WorkerMetrics<'p> {
    /// Counts a question that was put, its reply, and its entry in this shard.
    pub fn note_put(&self, shard: usize, question: &Question, reply: &Reply) {
        self.note_reply(question, reply);
        self.metrics.entries.add(shard, 1);
        if matches!(reply, Reply::Uploaded) {
            self.metrics.packs.add(shard, 1);
        }
    }

    /// Notes that the worker's desk takes a line.
    pub fn note_line(&self) {
        if let Some(counts) = self.counts {
            if counts.taken.fetch_add(1, Ordering::SeqCst) == 0 {
                counts.began.store(now(), Ordering::SeqCst);
            }
        }
    }

    /// Notes that the worker's desk releases the replies to all lines that it took since its last release. Each of them is
    /// counted with the time since the first was taken, so none with less than its own.
    pub fn note_release(&self) {
        if let Some(counts) = self.counts {
            let count = counts.taken.swap(0, Ordering::SeqCst);
            if count > 0 {
                let began = counts.began.load(Ordering::SeqCst);
                counts.replies.add(now().saturating_sub(began), count);
            }
        }
    }

    /// Counts a report.
    pub fn note_report(&self) {
        self.add(REPORTS);
    }

    /// Counts the faults among answers that are sent.
    pub fn note_answers(&self, released: &Released<'_>) {
        for place in 0..released.len() {
            let Some(answer) = released.answer(place) else {
                return;
            };
            match &answer.content {
                Content::Turned(turn) => self.note_fault(Fault::Turned(*turn)),
                Content::Unread(fault) => self.note_fault(Fault::Unread(*fault)),
                _ => {}
            }
        }
    }

    /// Counts a fault.
    pub fn note_fault(&self, fault: Fault) {
        self.add(FAULTED + fault.place());
    }

    /// Notes that the log has confirmed this number of entries of a shard, as the worker learns: no fewer than before.
    pub fn note_confirmed(&self, shard: usize, count: u64) {
        if let Some(counts) = self.counts {
            counts.rows.set(CONFIRMED.saturating_add(shard), count);
        }
    }

    /// Counts a connection that was accepted for the worker.
    pub fn note_accepted(&self) {
        self.add(ACCEPTED);
        self.add(OPEN);
    }

    /// Counts a connection of the worker that ended.
    pub fn note_ended(&self) {
        if let Some(counts) = self.counts {
            counts.rows.subtract_one(OPEN);
        }
    }

    /// Counts a connection of the worker that was closed because the buffers of all took too much memory.
    pub fn note_evicted(&self) {
        self.add(EVICTED);
    }

    /// Notes how many bytes the buffers of the worker's connections take.
    pub fn note_memory(&self, bytes: usize) {
        if let Some(counts) = self.counts {
            counts.rows.set(MEMORY, bytes as u64);
        }
    }

    /// Counts one more.
    fn add(&self, place: usize) {
        if let Some(counts) = self.counts {
            counts.rows.add(place, 1);
        }
    }

    /// Counts a question that had this reply.
    fn note_reply(&self, question: &Question, reply: &Reply) {
        let asked = QuestionKind::of(question).place();
        let replied = place_of_reply(ReplyKind::of(reply));
        self.add(ANSWERED + asked * REPLIES.len() + replied);
        match reply {
            Reply::Alert {
                cause,
                flagged: true,
                ..
            } => self.add(FLAGGED + place_of_cause(*cause)),
            Reply::Refused(refusal) => self.add(REFUSED + place_of_refusal(*refusal)),
            _ => {}
        }
    }
}
