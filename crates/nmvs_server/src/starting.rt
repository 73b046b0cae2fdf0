//! The start of the program by its options: it logs the start, and serves metrics.
ghost use Rattle.nmvs_stream.specs.Console.{IsFresh};

use crate::launch::serve_run;
use crate::{EngineThreads, Fault, Host, Outcome};
use log::{Log, error, info};
use nmvs_exposition::{MetricsListener, serve_metrics};
use nmvs_metrics::Metrics;
use nmvs_operator::{Options, VERSION};
use nmvs_stream::{Console, Sides};
use std::alloc::{AllocError, Global};
use std::net::SocketAddr;
use std::random::RandomSource;
use std::rt::Clock;
use std::sync::Wait;
use std::sync::atomic::AtomicBool;
use std::thread;
use std::thread::Threads;

/// The interrupt of a server's console, and the threads next to the server.
#[derive(Clone, Copy)]
pub struct Beside<'b> {
    /// Whether the console is to give no further command.
    pub interrupt: &'b AtomicBool,
    /// The threads of a server among several machines.
    pub threads: Option<EngineThreads<'b>>,
}

/// Serves one session over the console, or connections at the address or the socket of the options. With connections, the
/// console gives commands of the registrar and takes their answers, until the server sets the interrupt. If the options say so,
/// the program serves metrics at an address of their own from the start on.
pub fn start<'r, 'o, R: Host + Sync, T: Sides>(
    rt: &'r R,
    alloc: Global,
    options: &'o Options,
    console: &mut Console<T>,
    beside: Beside<'r>,
) -> Outcome<'o>
    requires fresh { IsFresh (T.Source.told console.old.source) (T.Sink.taken console.old.sink) }
{
    tell_start(rt, options);
    let Ok(metrics) = metrics_of(alloc, options) else {
        return Outcome::of(Fault::Memory);
    };
    let metrics = &metrics;
    let Some(address) = options.metrics else {
        return serve_run(rt, &alloc, options, metrics, console, beside);
    };
    let listener = match open_metrics(rt, address) {
        Ok(listener) => listener,
        Err(fault) => return Outcome::of(fault),
    };
    let served = run_beside(
        rt,
        alloc,
        listener,
        metrics,
        ||
            requires fresh { IsFresh (T.Source.told console.now.source) (T.Sink.taken console.now.sink) }
        { serve_run(rt, &alloc, options, metrics, console, beside) },
    );
    match served {
        Ok(outcome) => outcome,
        Err(AllocError) => Outcome::of(Fault::Memory),
    }
}

/// Logs the version, and the options on shards, workers, connections, idle time, rate, import and journal.
fn tell_start<R: Log>(rt: &R, options: &Options) {
    let (shards, workers, connections) = (options.shards, options.workers, options.connections);
    let (idle, rate) = (options.idle, options.rate);
    let import = options.import.as_deref().unwrap_or("-");
    let journal = options.journal.as_deref().unwrap_or("-");
    info!(rt; version = VERSION, shards, workers, connections, idle, rate, import, journal; "start");
}

/// The metrics of a run.
fn metrics_of(alloc: Global, options: &Options) -> Result<Metrics, AllocError> {
    let workers = if options.stdin { 1 } else { options.workers };
    Metrics::new(alloc, workers, options.shards, options.journal.is_some())
}

/// Opens the address at which metrics are served, and logs its port, or why the system refused it.
fn open_metrics<'o, R: Host>(rt: &R, address: SocketAddr) -> Result<MetricsListener, Fault<'o>> {
    match MetricsListener::open(rt, address) {
        Ok(listener) => {
            log_metrics_port(rt, &listener);
            Ok(listener)
        }
        Err(error) => {
            let port = address.port();
            error!(rt; "cannot listen on port {port}: {error}");
            Err(Fault::CannotListen(port))
        }
    }
}

/// Logs at which port metrics are served.
fn log_metrics_port<R: Log>(rt: &R, listener: &MetricsListener) {
    if let Some(port) = listener.port() {
        info!(rt; port; "metrics");
    }
}

/// Does this work while another thread serves metrics, and returns after both have ended.
///
/// # Errors
///
/// The thread or memory for it was refused. The work is not begun then.
fn run_beside<
    // Neither `Host` nor `Files`: the work of a thread may not rest on them.
    R: Threads + Wait + Clock + RandomSource + Log + Sync,
    O,
    F: FnOnce() -> O,
>(
    rt: &R,
    alloc: Global,
    listener: MetricsListener,
    metrics: &Metrics,
    work: F,
) -> Result<O, AllocError>
    requires work { F.pre work }
{
    thread::scope(
        thread::scope_env(),
        rt,
        |scope|
            requires work { F.pre work }
        {
            let Ok(server) = scope.spawn(move || serve_metrics(rt, alloc, listener, metrics)) else {
                return Err(AllocError);
            };
            let outcome = work();
            metrics.note_end();
            let _served_no_more = server.join(rt);
            Ok(outcome)
        },
    )
}
