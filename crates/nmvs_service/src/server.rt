//! The configuration of a server, and the state that its workers share.
ghost use Rattle.std.specs.Prelude.{◌≡◌};

use crate::trail_file::LogStore;
use crate::watching::Watch;
use nmvs_connections::{HttpListener, Listener, WorkerPool};
use nmvs_desk::Repository;
use nmvs_directory::{Naming, Notice};
use nmvs_engine::Turn;
use nmvs_history::Histories;
use nmvs_journal::{CommitLog, LogName};
use nmvs_metrics::Metrics;
use nmvs_rate::SharedLimiter;
use nmvs_reception::Alerts;
use nmvs_recovery::Run;
use std::alloc::Global;
use std::sync::Mutex;
use std::sync::atomic::AtomicBool;

/// The configuration of a server from its start on, with its listeners and counts.
#[derive(Drop)]
pub struct Config<'r, 'o, R> {
    pub run: Run<'r, 'o, R>,
    /// The listener that accepts connections. If there is none, the server serves one session over the console.
    pub listener: Option<Listener>,
    /// The listener that accepts connections over HTTP, if there is one.
    pub http: Option<HttpListener>,
    /// The counters of the run.
    pub metrics: &'r Metrics,
    /// The users who raise flagged alerts.
    pub alerts: Alerts,
    /// Whether the console is to give no further command.
    pub interrupt: &'r AtomicBool,
    /// Whether the log was lost to the server of another machine, or its engine was.
    pub is_fenced: AtomicBool,
    /// The turn of a server among several machines.
    pub turn: Mutex<Option<Turn<'r>>>,
}

/// An open server, which its workers share. `J` names its directory of users, `H` the histories of its shards, and its log.
#[derive(Drop)]
pub(crate) struct Server<'f, 'r, 'o, R, J: Naming, H: Histories + LogName> {
    pub(crate) config: &'f Config<'r, 'o, R>,
    pub(crate) listener: &'f Listener,
    /// The notice of the users that were published last.
    pub(crate) latest: &'f Mutex<Notice<J>>,
    pub(crate) repository: &'f Repository<'r, H>,
    /// The log that answers wait for, if there is one.
    pub(crate) log: Option<CommitLog<'f, 'r, LogStore<'r>, H, H>>,
    /// The watch over its file.
    pub(crate) watch: Watch,
    pub(crate) pool: WorkerPool<'r>,
    /// The lines that each user may still ask, if there is a rate.
    pub(crate) limiter: Option<SharedLimiter<Global>>,
    /// Whether the workers may begin: it is locked until all of them are there.
    pub(crate) ready: Mutex<bool>,
    pub(crate) ghost behind: { pool.proxy ≡ config.now.run.options.now.proxy },
}
