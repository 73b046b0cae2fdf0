//! The threads of a server: workers, and those that accept connections, write the log and carry out commands.
ghost use Rattle.std.specs.Prelude.{◌≡◌, ◌*◌, ◌-◌, ◌^◌, min};
ghost use Rattle.nmvs_service.specs.Bounds.{sessions_of};

use crate::announcements::{http_at, http_on, listening_at, listening_on};
use crate::confirming::{close_log, write_log};
use crate::server::{Config, Server};
use crate::service::Running;
use log::{Log, info};
use nmvs_connections::{Bounds, Listener, Poller, accept_loop, serve};
use nmvs_desk::Clerk;
use nmvs_directory::{Naming, Registrar};
use nmvs_history::Histories;
use nmvs_journal::{LogName, Unconfirmed};
use nmvs_messages::Desk;
use nmvs_operator::{Latest, Options, obey_all};
use nmvs_reception::{ClerkDesk, JournalDesk, ProgramClock};
use nmvs_stream::{Console, Sides, Sink, deliver};
use std::alloc::{AllocError, Global};
use std::fs::File;
use std::iter::Zip;
use std::ops::Range;
use std::rt::{Clock, Files};
use std::sync::{Mutex, Wait};
use std::thread;
use std::thread::{JoinHandle, Threads};
use std::time::Duration;
use std::vec::IntoIter;

/// The bounds of the connections of this number of workers.
pub(crate) fn bounds_of(options: &Options, workers: usize) -> Bounds
    ensures connections { result.connections ≡ options.now.connections }
    ensures memory { result.memory ≡ min (options.now.connection_memory * 1048576) (2 ^ 64 - 1) }
    ensures proxy { result.proxy ≡ options.now.proxy }
    ensures sessions { result.sessions ≡ sessions_of options.now.sessions workers }
{
    Bounds {
        connections: options.connections,
        memory: bytes_of(options.connection_memory),
        idle: match options.idle {
            0 => None,
            seconds => Some(Duration::from_secs(seconds)),
        },
        proxy: options.proxy,
        sessions: match options.sessions {
            0 => u64::MAX,
            sessions => sessions.saturating_mul(workers as u64),
        },
    }
}

/// This number of MiB, in bytes.
fn bytes_of(mebibytes: u64) -> usize
    ensures { result ≡ min (mebibytes * 1048576) (2 ^ 64 - 1) }
{
    mebibytes.saturating_mul(1_048_576) as usize
}

/// The clerks that no worker has, with their pollers and numbers. They lie outside the threads' scope, whose early end need not
/// give them up.
type FreeClerks<'r, J, H> = Mutex<
    Zip<Zip<IntoIter<Clerk<'r, J, H>, &'r Global>, IntoIter<Poller>>, Range<usize>>,
>;

/// Serves the connections of the next worker, and returns its clerk. If the worker cannot go on, it ends the service.
fn work<'r, R: Wait + Clock + Log, J: Naming, H: Histories + LogName>(
    server: &Server<'_, 'r, '_, R, J, H>,
    free: &FreeClerks<'r, J, H>,
) -> Option<Clerk<'r, J, H>> {
    let run = &server.config.run;
    let ((clerk, poller), number) = free.lock(run.rt).next()?;
    if !may_begin(server) {
        return Some(clerk);
    }
    Some(serve_by_clerk(server, clerk, number, poller))
}

/// Serves the connections of the worker with this number, and returns the clerk.
fn serve_by_clerk<'r, R: Wait + Clock + Log, J: Naming, H: Histories + LogName>(
    server: &Server<'_, 'r, '_, R, J, H>,
    clerk: Clerk<'r, J, H>,
    number: usize,
    poller: Poller,
) -> Clerk<'r, J, H> {
    let desk = desk_of(server, clerk, number);
    match &server.log {
        None => serve_by_desk(server, number, poller, desk).into_clerk(),
        Some(log) => {
            let config = server.config;
            let confirmed = log.confirmed(config.run.rt);
            let desk = JournalDesk::new(desk, log, confirmed);
            serve_by_desk(server, number, poller, desk).into_clerk()
        }
    }
}

/// Whether all workers are there. It waits until that is known.
fn may_begin<R: Wait, J: Naming, H: Histories + LogName>(
    server: &Server<'_, '_, '_, R, J, H>,
) -> bool {
    let run = &server.config.run;
    *server.ready.lock(run.rt)
}

/// The desk of the worker with this number. Its clerk keeps no receipts: at the end only its places count.
fn desk_of<'s, 'r, R: Wait + Clock + Log, J: Naming, H: Histories + LogName>(
    server: &'s Server<'_, 'r, '_, R, J, H>,
    clerk: Clerk<'r, J, H>,
    number: usize,
) -> ClerkDesk<'s, 'r, R, J, H, ProgramClock<'s, R>> {
    let mut clerk = clerk;
    clerk.keep_no_receipts();
    let config = server.config;
    let run = &config.run;
    let clock = ProgramClock::new(run.rt, run.options.moment);
    let metrics = config.metrics.worker(number);
    ClerkDesk::new(
        run.rt,
        clerk,
        server.repository,
        server.latest,
        server.limiter.as_ref(),
        clock,
        metrics,
        &config.alerts,
    )
}

/// Serves connections by a desk, and returns the desk. If it cannot go on, it ends the service.
fn serve_by_desk<'r, R: Wait + Clock + Log, J: Naming, H: Histories + LogName, D: Desk>(
    server: &Server<'_, 'r, '_, R, J, H>,
    number: usize,
    poller: Poller,
    mut desk: D,
) -> D {
    let run = &server.config.run;
    if serve(run.rt, *run.alloc, &server.pool, number, poller, &mut desk).is_err() {
        server.pool.stop(run.rt);
    }
    desk
}

/// Accepts connections for the workers. If it cannot go on, it ends the service.
fn accept<R: Wait + Log, J: Naming, H: Histories + LogName>(
    server: &Server<'_, '_, '_, R, J, H>,
    acceptor: &Mutex<Option<Poller>>,
) {
    let config = server.config;
    let (run, alloc, http) = (&config.run, *config.run.alloc, config.http.as_ref());
    let Some(acceptor) = acceptor.lock(run.rt).take() else {
        return;
    };
    if accept_loop(run.rt, alloc, &server.pool, server.listener, http, acceptor).is_err() {
        server.pool.stop(run.rt);
    }
}

/// The clerks after the workers have ended, and the number of confirmed entries, or that not all are confirmed.
pub(crate) type Served<'r, J, H> = (Vec<Clerk<'r, J, H>, &'r Global>, Result<usize, Unconfirmed>);

/// Serves connections in one thread a clerk, accepts them in one more, writes the log in another, and carries out commands in
/// this one. It returns after the commands have ended and the pool has closed.
///
/// # Errors
///
/// A thread or memory for one was refused. No connection is served then.
pub(crate) fn serve_connections<
    'r,
    // Not `Host`: the work of a thread may rest on traits of the library alone.
    R: Threads + Wait + Clock + Files<File = File> + Eprint + Log + Sync,
    J: Naming + Send + Sync,
    H: Histories + LogName + Send + Sync,
    T: Sides,
>(
    server: &Server<'_, 'r, '_, R, J, H>,
    clerks: Vec<Clerk<'r, J, H>, &'r Global>,
    pollers: (Vec<Poller>, Poller),
    running: &mut Running<'_, '_, 'r, '_, R, J, H>,
    registrar: &mut Registrar<J, &'r R, &'r Global>,
    console: &mut Console<T>,
) -> Result<Served<'r, J, H>, AllocError> {
    // room for the clerks is made before anything is served, so that refused memory loses no trail
    let run = &server.config.run;
    let Ok(mut back) = Vec::with_capacity(run.alloc, clerks.len()) else {
        drop((clerks, pollers));
        return Err(AllocError);
    };
    let served = serve_in_threads(
        server, clerks, pollers, &mut back, running, registrar, console,
    );
    match served {
        Ok(confirmed) => Ok((back, confirmed)),
        Err(AllocError) => {
            drop(back);
            Err(AllocError)
        }
    }
}

/// Serves connections in threads, and gives the clerks back once they have ended.
fn serve_in_threads<
    'r,
    R: Threads + Wait + Clock + Files<File = File> + Eprint + Log + Sync,
    J: Naming + Send + Sync,
    H: Histories + LogName + Send + Sync,
    T: Sides,
>(
    server: &Server<'_, 'r, '_, R, J, H>,
    clerks: Vec<Clerk<'r, J, H>, &'r Global>,
    (pollers, acceptor): (Vec<Poller>, Poller),
    back: &mut Vec<Clerk<'r, J, H>, &'r Global>,
    running: &mut Running<'_, '_, 'r, '_, R, J, H>,
    registrar: &mut Registrar<J, &'r R, &'r Global>,
    console: &mut Console<T>,
) -> Result<Result<usize, Unconfirmed>, AllocError> {
    let run = &server.config.run;
    let workers = clerks.len();
    let free = Mutex::new(clerks.into_iter().zip(pollers).zip(0..workers));
    let acceptor = Mutex::new(Some(acceptor));
    let (clerks, acceptor) = (&free, &acceptor);
    thread::scope(thread::scope_env(), run.rt, |scope| {
        let mut ready = server.ready.lock(run.rt);
        let mut working = Vec::new(*run.alloc);
        let mut begun = true;
        for _ in 0..workers {
            begun = match scope.spawn(move || work(server, clerks)) {
                Ok(worker) => working.push(worker).is_ok(),
                Err(_) => false,
            };
            if !begun {
                break;
            }
        }
        begun = begun && scope.spawn(move || accept(server, acceptor)).is_ok();
        begun = begun && scope.spawn(move || write_log(server)).is_ok();
        *ready = begun;
        drop(ready);
        if !begun {
            server.pool.stop(run.rt);
            drop(working);
            return Err(AllocError);
        }
        take_commands(running, registrar, console);
        join_all(run.rt, working, back);
        Ok(close_log(server, back))
    })
}

/// The threads of the workers, each with the clerk that it gives back.
type Working<'r, J, H> = Vec<JoinHandle<Option<Clerk<'r, J, H>>>>;

/// Puts the clerks back once the workers have ended.
fn join_all<'r, R: Threads, J: Naming, H: Histories + LogName>(
    rt: &R,
    workers: Working<'r, J, H>,
    back: &mut Vec<Clerk<'r, J, H>, &'r Global>,
) {
    for worker in workers {
        if let Some(clerk) = worker.join(rt) {
            let _room_was_made = back.push(clerk);
        }
    }
}

/// Says that the workers serve, and carries out the operator's commands until these end.
fn take_commands<
    'r,
    R: Wait + Clock + Files<File = File> + Eprint + Log,
    J: Naming,
    H: Histories + LogName,
    T: Sides,
>(
    running: &mut Running<'_, '_, 'r, '_, R, J, H>,
    registrar: &mut Registrar<J, &'r R, &'r Global>,
    console: &mut Console<T>,
) {
    let server = running.server;
    let config = server.config;
    config.metrics.note_ready();
    tell_place(config, server.listener, &mut console.sink);
    tell_http(config, &mut console.sink);
    let mut latest = Latest::new(config.run.rt, server.latest);
    obey_all(*config.run.alloc, console, registrar, &mut latest, running);
}

/// Logs and prints the port on which the program listens, or the path of its socket. A failed write changes nothing.
fn tell_place<R: Log, W: Sink>(config: &Config<'_, '_, R>, listener: &Listener, out: &mut W) {
    let (run, alloc) = (&config.run, *config.run.alloc);
    let text = match (listener.port(), &run.options.socket) {
        (Some(port), _) => {
            info!(run.rt; port; "listening");
            listening_on(alloc, port)
        }
        (None, Some(path)) => {
            info!(run.rt; socket = path.as_str(); "listening");
            listening_at(alloc, path)
        }
        (None, None) => return,
    };
    if let Ok(text) = text {
        let _failed = deliver(out, text.as_bytes());
    }
}

/// Logs and prints the port on which the program listens for HTTP, or the path of its socket. A failed write changes nothing.
fn tell_http<R: Log, W: Sink>(config: &Config<'_, '_, R>, out: &mut W) {
    let (run, alloc) = (&config.run, *config.run.alloc);
    let Some(http) = &config.http else {
        return;
    };
    let text = match (http.listener.port(), &run.options.http_socket) {
        (Some(http), _) => {
            info!(run.rt; http; "listening");
            http_on(alloc, http)
        }
        (None, Some(path)) => {
            info!(run.rt; http = path.as_str(); "listening");
            http_at(alloc, path)
        }
        (None, None) => return,
    };
    if let Ok(text) = text {
        let _failed = deliver(out, text.as_bytes());
    }
}
