//! Opens the repository and its log, serves by them, and closes them.
ghost use Rattle.std.specs.Prelude.{◌≡◌, ◌≤◌, ◌<◌, ℕ, length, vec_len, IfNone, IfOk, IfSome};
ghost use Rattle.nmvs_desk.specs.Opening.{table_of};
ghost use Rattle.nmvs_desk.specs.Placing.{IsPartOf};
ghost use Rattle.nmvs_desk.specs.Settlement.{row};
ghost use Rattle.nmvs_stream.specs.Console.{IsFresh};
ghost use Rattle.nmvs_service.specs.LogStart.{BeginsLog};

use crate::closing::{close, mark_all};
use crate::server::{Config, Server};
use crate::service::Running;
use crate::session::serve_alone;
use crate::trail_file::LogStore;
use crate::watching::Watch;
use crate::workers::{Served, bounds_of, serve_connections};
use crate::{Fault, Outcome};
use nmvs_connections::{Listener, Poller, WorkerPool};
use nmvs_desk::{Clerk, MOST_CLERKS, Repository};
use nmvs_directory::{Naming, Notice, Registrar};
use nmvs_engine::UsersLog;
use nmvs_history::Histories;
use nmvs_journal::{CommitLog, LogName, UnnamedLog};
use nmvs_operator::Options;
use nmvs_rate::{Rate, SharedLimiter};
use nmvs_reception::{Opened, Opening};
use nmvs_recovery::{Host, Paths};
use nmvs_stream::{Console, Sides};
use std::alloc::{AllocError, Global};
use std::fs;
use std::io::ErrorKind;
use std::sync::Mutex;
use std::time::Duration;

/// The number of blocks in the time after which another server takes over (own).
const BEATS: u64 = 3;

/// The log that a server opens: its store, the history of the confirmed entries, and their number in each shard. It comes
/// with the paths of its folder and the log of the users.
#[derive(Drop)]
pub struct LogStart<'r, 'o> {
    pub store: LogStore<'r>,
    pub history: UnnamedLog,
    pub counts: Vec<usize>,
    pub paths: Paths<'o>,
    pub users: UsersLog<'r>,
}

/// Opens the repository, and serves by it over connections or over the console.
pub fn open_repository<
    'r,
    'o,
    J: Naming + Send + Sync,
    H: Histories + LogName + Send + Sync,
    R: Host + Sync,
    T: Sides,
>(
    config: &Config<'r, 'o, R>,
    latest: &Mutex<Notice<J>>,
    opening: Opening<'r, J>,
    log: Option<LogStart<'r, 'o>>,
    registrar: &mut Registrar<J, &'r R, &'r Global>,
    console: &mut Console<T>,
) -> Outcome<'o>
    requires tables { (i : ℕ) → table_of opening.keepers i ≡ H.tables i }
    requires named { (H.shards ≡ length opening.keepers) × (H.clerks ≡ vec_len opening.windows) × ((i : ℕ) → H.opening i ≡ row opening.shards.items i) }
    requires many { vec_len opening.shards ≡ length opening.keepers }
    requires placed { (i : ℕ) → IsPartOf (length opening.keepers) i (row opening.shards.items i) }
    requires name { IfSome log (λ l. l.history.seen.book ≡ H.book) }
    requires log { IfSome log (λ l. BeginsLog l H.shards H.opening) }
    requires some { 0 < vec_len opening.windows }
    requires few { vec_len opening.windows ≤ MOST_CLERKS }
    requires fresh { IfNone config.now.listener (IsFresh (T.Source.told console.old.source) (T.Sink.taken console.old.sink)) }
{
    let Ok(opened) = opening.open::<H>(config.run.alloc) else {
        drop(log);
        return Outcome::of(Fault::Memory);
    };
    match &config.listener {
        Some(listener) => serve_on(config, listener, latest, opened, log, registrar, console),
        None => {
            drop(log);
            serve_alone(config, latest, opened, console)
        }
    }
}

/// Serves connections, while the console gives commands and takes their answers. Then it writes the export and settles the
/// repository.
fn serve_on<
    'r,
    'o,
    J: Naming + Send + Sync,
    H: Histories + LogName + Send + Sync,
    R: Host + Sync,
    T: Sides,
>(
    config: &Config<'r, 'o, R>,
    listener: &Listener,
    latest: &Mutex<Notice<J>>,
    opened: Opened<'r, J, H>,
    log: Option<LogStart<'r, 'o>>,
    registrar: &mut Registrar<J, &'r R, &'r Global>,
    console: &mut Console<T>,
) -> Outcome<'o>
    requires name { IfSome log (λ l. l.history.seen.book ≡ H.book) }
    requires log { IfSome log (λ l. BeginsLog l H.shards H.opening) }
{
    let Opened { repository, clerks } = opened;
    let served = serve_clerks(
        &*config,
        &*listener,
        &*latest,
        &repository,
        log,
        clerks,
        registrar,
        console,
    );
    let program = match served {
        Ok(clerks) => close(config, repository, clerks, &mut console.sink).err(),
        Err(fault) => {
            drop(repository);
            Some(fault)
        }
    };
    Outcome {
        session: None,
        program,
    }
}

/// Opens the log, if there is one, and serves connections by clerks. It returns the clerks after all of the trail is
/// confirmed and marked.
fn serve_clerks<
    'f,
    'r,
    'o,
    J: Naming + Send + Sync,
    H: Histories + LogName + Send + Sync,
    R: Host + Sync,
    T: Sides,
>(
    config: &'f Config<'r, 'o, R>,
    listener: &'f Listener,
    latest: &'f Mutex<Notice<J>>,
    repository: &'f Repository<'r, H>,
    log: Option<LogStart<'r, 'o>>,
    clerks: Vec<Clerk<'r, J, H>, &'r Global>,
    registrar: &mut Registrar<J, &'r R, &'r Global>,
    console: &mut Console<T>,
) -> Result<Vec<Clerk<'r, J, H>, &'r Global>, Fault<'o>>
    requires name { IfSome log (λ l. l.history.seen.book ≡ H.book) }
    requires log { IfSome log (λ l. BeginsLog l H.shards H.opening) }
{
    let (log, paths, users) = match open_log(config, repository, log) {
        Ok(opened) => opened,
        Err(fault) => {
            drop(clerks);
            return Err(fault);
        }
    };
    let logs = (log, users, watch_of(config, paths.as_ref()));
    let served = serve_by_pool(
        config, listener, latest, repository, logs, clerks, registrar, console,
    );
    mark_served(config, paths, served)
}

/// Marks all of the trail as confirmed after it was served, and returns the clerks.
fn mark_served<'r, 'o, J: Naming, H: Histories + LogName, R: Host>(
    config: &Config<'r, 'o, R>,
    paths: Option<Paths<'o>>,
    served: Result<Served<'r, J, H>, Fault<'o>>,
) -> Result<Vec<Clerk<'r, J, H>, &'r Global>, Fault<'o>> {
    let (clerks, confirmed) = match served {
        Ok(served) => served,
        Err(fault) => {
            drop(paths);
            return Err(fault);
        }
    };
    let marked = mark_all(config, paths.as_ref(), confirmed);
    drop(paths);
    match marked {
        Ok(()) => Ok(clerks),
        Err(fault) => {
            drop(clerks);
            Err(fault)
        }
    }
}

/// The watch over the file of the log. It watches none if there is no log, or if an engine keeps it: the file is a copy then.
fn watch_of<'o, R: Host>(config: &Config<'_, 'o, R>, paths: Option<&Paths<'o>>) -> Watch {
    let run = &config.run;
    match paths {
        Some(paths) if run.options.cluster.is_none() => Watch::over(fs::open(
            run.rt,
            &paths.trail,
        ).ok()),
        _ => Watch::over(None),
    }
}

/// Opens the pool of workers, and serves connections by clerks over these logs of the trail and of the users.
fn serve_by_pool<
    'f,
    'r,
    'o,
    J: Naming + Send + Sync,
    H: Histories + LogName + Send + Sync,
    R: Host + Sync,
    T: Sides,
>(
    config: &'f Config<'r, 'o, R>,
    listener: &'f Listener,
    latest: &'f Mutex<Notice<J>>,
    repository: &'f Repository<'r, H>,
    logs: (
        Option<CommitLog<'f, 'r, LogStore<'r>, H, H>>,
        Option<UsersLog<'r>>,
        Watch,
    ),
    clerks: Vec<Clerk<'r, J, H>, &'r Global>,
    registrar: &mut Registrar<J, &'r R, &'r Global>,
    console: &mut Console<T>,
) -> Result<Served<'r, J, H>, Fault<'o>> {
    let (pool, pollers, acceptor) = match open_pool(config, clerks.len()) {
        Ok(opened) => opened,
        Err(fault) => {
            drop((logs, clerks));
            return Err(fault);
        }
    };
    let (log, users, watch) = logs;
    let server = Server {
        config,
        listener,
        latest,
        repository,
        log,
        watch,
        pool,
        limiter: limiter_of(config),
        ready: Mutex::new(false),
    };
    let pollers = (pollers, acceptor);
    let served = serve_opened(&server, users, clerks, pollers, registrar, console);
    drop(server);
    served
}

/// Serves connections by clerks, and has the log of the users keep what the operator changes.
fn serve_opened<
    'r,
    'o,
    J: Naming + Send + Sync,
    H: Histories + LogName + Send + Sync,
    R: Host + Sync,
    T: Sides,
>(
    server: &Server<'_, 'r, 'o, R, J, H>,
    users: Option<UsersLog<'r>>,
    clerks: Vec<Clerk<'r, J, H>, &'r Global>,
    pollers: (Vec<Poller>, Poller),
    registrar: &mut Registrar<J, &'r R, &'r Global>,
    console: &mut Console<T>,
) -> Result<Served<'r, J, H>, Fault<'o>> {
    let mut running = Running { server, users };
    let served = serve_connections(server, clerks, pollers, &mut running, registrar, console);
    drop(running);
    match served {
        Ok(served) => Ok(served),
        Err(AllocError) => Err(Fault::Memory),
    }
}

/// Opens the log, if there is one. It returns the log, the paths of its folder and the log of the users.
fn open_log<'f, 'r, 'o, H: Histories + LogName, R: Host>(
    config: &Config<'r, 'o, R>,
    repository: &'f Repository<'r, H>,
    start: Option<LogStart<'r, 'o>>,
) -> Result<
    (
        Option<CommitLog<'f, 'r, LogStore<'r>, H, H>>,
        Option<Paths<'o>>,
        Option<UsersLog<'r>>,
    ),
    Fault<'o>,
>
    requires name { IfSome start (λ l. l.history.seen.book ≡ H.book) }
    requires begun { IfSome start (λ l. BeginsLog l H.shards H.opening) }
{
    let Some(start) = start else {
        return Ok((None, None, None));
    };
    let LogStart {
        store,
        history,
        counts,
        paths,
        users,
    } = start;
    let (rt, alloc) = (config.run.rt, *config.run.alloc);
    match CommitLog::<_, H, H>::open(rt, alloc, repository, store, history, &counts) {
        Ok(log) => {
            config.metrics.note_all_confirmed();
            let log = with_beat(config.run.options, log);
            Ok((Some(log), Some(paths), Some(users)))
        }
        Err(AllocError) => {
            drop((paths, users));
            Err(Fault::Memory)
        }
    }
}

/// The log, which writes often enough that no server of another machine takes over, if there are such.
fn with_beat<'f, 'r, H: Histories + LogName>(
    options: &Options,
    log: CommitLog<'f, 'r, LogStore<'r>, H, H>,
) -> CommitLog<'f, 'r, LogStore<'r>, H, H> {
    match &options.cluster {
        Some(cluster) => log.with_beat(Duration::from_millis(
            cluster.silence.saturating_mul(1_000) / BEATS,
        )),
        None => log,
    }
}

/// The pool of this many workers, with a poller for each, and one for the thread that accepts.
fn open_pool<'r, 'o, R: Host>(
    config: &Config<'r, 'o, R>,
    workers: usize,
) -> Result<(WorkerPool<'r>, Vec<Poller>, Poller), Fault<'o>>
    ensures proxy { IfOk result (λ opened. opened.0.proxy ≡ config.now.run.options.now.proxy) }
{
    let (run, bounds) = (&config.run, bounds_of(config.run.options, workers));
    match WorkerPool::open(run.rt, *run.alloc, workers, bounds, config.metrics) {
        Ok(opened) => Ok(opened),
        Err(fault) if fault.kind() == ErrorKind::OutOfMemory => Err(Fault::Memory),
        Err(_) => Err(Fault::of_listening(run.options)),
    }
}

/// The limiter of the lines of each user, if there is a rate.
fn limiter_of<R: Host>(config: &Config<'_, '_, R>) -> Option<SharedLimiter<Global>> {
    let run = &config.run;
    let rate = Rate::new(run.options.rate, run.options.burst)?;
    Some(SharedLimiter::new(run.rt, *run.alloc, rate))
}
