//! The state that the threads of a server share.
ghost use Rattle.std.specs.Prelude.{◌≡◌, IfOk};
ghost use Rattle.nmvs_connections.specs.Pools.{share_of};

use crate::socket::Socket;
use mio::{Events, Poll, Token, Waker};
use nmvs_messages::{Fault, NameOf};
use nmvs_metrics::{Metrics, WorkerMetrics};
use std::alloc::{AllocError, Global};
use std::hash::RandomState;
use std::io;
use std::marker::Model;
use std::net::{IpAddr, Net};
use std::sync::{Mutex, Wait};
use std::time::Duration;

/// The token of a wake-up.
pub(crate) const WAKE: Token = Token(usize::MAX);

/// How many events of a worker are taken at once (own).
const WORKER_EVENTS: usize = 1_024;

/// How many events of the thread that accepts are taken at once: those of two listeners and a wake-up (own).
const ACCEPTOR_EVENTS: usize = 3;

/// The limits of connections and sessions, and the header of each connection.
#[derive(Clone, Copy)]
pub struct Bounds {
    /// The most connections that are open at once.
    pub connections: usize,
    /// The most bytes that the buffers of all connections take.
    pub memory: usize,
    /// How long a connection may ask nothing, if there is a limit.
    pub idle: Option<Duration>,
    /// Whether the gateway's header names a user or an authorisation, if each connection begins with one.
    pub proxy: Option<NameOf>,
    /// The most sessions in which a line is served; `u64::MAX` is no limit.
    pub sessions: u64,
}

/// Counts of the connections of all workers.
#[derive(Drop)]
struct Counts {
    open: usize,
    /// How many of them each worker has.
    workers: Vec<usize>,
    /// How many sessions have begun.
    begun: u64,
    /// How many more sessions may begin.
    sessions: u64,
    stopped: bool,
}

impl Counts {
    /// Counts without an open connection, and with this number of sessions that may begin.
    fn none(alloc: Global, workers: usize, sessions: u64) -> Result<Counts, AllocError> {
        Ok(Counts {
            open: 0,
            workers: Vec::from_elem(alloc, 0, workers)?,
            begun: 0,
            sessions,
            stopped: false,
        })
    }

    /// Counts a connection more of the worker of this number.
    fn enter(&mut self, worker: usize) {
        self.open = self.open.saturating_add(1);
        if let Some(open) = self.workers.get_mut(worker) {
            *open = open.saturating_add(1);
        }
    }

    /// Counts a connection less of the worker of this number.
    fn leave(&mut self, worker: usize) {
        self.open = self.open.saturating_sub(1);
        if let Some(open) = self.workers.get_mut(worker) {
            *open = open.saturating_sub(1);
        }
    }
}

/// How busy a pool is, at one moment.
#[derive(Drop)]
pub struct Load {
    /// How many connections are open.
    pub open: usize,
    /// How many of them each worker has.
    pub workers: Vec<usize>,
    /// How many sessions have begun in which a line is served.
    pub sessions: u64,
}

/// A connection that was accepted.
#[derive(Drop)]
pub(crate) struct Accepted {
    /// Its number, in the order in which they were accepted.
    pub(crate) number: usize,
    /// The address that it comes from, over TCP.
    pub(crate) address: Option<IpAddr>,
    pub(crate) socket: Socket,
    /// The keys for the fields of its requests, if its lines are carried over HTTP.
    pub(crate) http: Option<RandomState>,
}

/// The inbox of a worker: the connections that were accepted for it, and the waker that ends its wait.
#[derive(Drop)]
struct Inbox {
    accepted: Mutex<Vec<Accepted>>,
    waker: Waker,
}

impl Inbox {
    /// The inbox of the worker that waits at this poller.
    fn of(alloc: Global, poller: &Poller) -> io::Result<Inbox> {
        let waker = poller.waker()?;
        Ok(Inbox {
            accepted: Mutex::new(Vec::new(alloc)),
            waker,
        })
    }
}

/// The state that the threads of a server share: the counts of its connections, the wakers and inboxes of its threads, and
/// its metrics.
#[derive(Drop)]
pub struct WorkerPool<'p> {
    bounds: Bounds,
    /// The most bytes that the buffers of a worker's connections take.
    memory: usize,
    metrics: &'p Metrics,
    counts: Mutex<Counts>,
    inboxes: Vec<Inbox>,
    acceptor: Waker,
}

impl<'p> Model for WorkerPool<'p> {
    ghost use Rattle.nmvs_connections.specs.Pools.{PoolState};

    ghost Value = { PoolState };

    ghost view = { λ p. record { proxy = p.bounds.proxy; memory = p.memory } };
}

/// The poll at which one thread waits, and room for its events.
#[derive(Drop)]
pub struct Poller {
    pub(crate) poll: Poll,
    pub(crate) events: Events,
}

impl Poller {
    fn new(rt: &impl Net, alloc: Global, events: usize) -> io::Result<Poller> {
        Ok(Poller {
            poll: Poll::new(rt)?,
            events: Events::with_capacity(alloc, events)?,
        })
    }

    fn waker(&self) -> io::Result<Waker> {
        Waker::new(self.poll.registry(), WAKE)
    }
}

impl<'p> WorkerPool<'p> {
    /// A pool for this number of workers, with a poller for each, and one for the thread that accepts. Its threads count in
    /// the metrics.
    ///
    /// # Errors
    ///
    /// Memory, or a descriptor, was refused.
    pub fn open(
        rt: &impl Net,
        alloc: Global,
        workers: usize,
        bounds: Bounds,
        metrics: &'p Metrics,
    ) -> io::Result<(WorkerPool<'p>, Vec<Poller>, Poller)>
        ensures { IfOk result (λ opened. opened.0 ≡ record { proxy = bounds.proxy; memory = share_of bounds.memory workers }) }
    {
        let acceptor = Poller::new(rt, alloc, ACCEPTOR_EVENTS)?;
        let mut pool = WorkerPool::with_acceptor(alloc, &acceptor, workers, bounds, metrics)?;
        let pollers = pool.open_inboxes(rt, alloc, workers)?;
        Ok((pool, pollers, acceptor))
    }

    /// A pool that has no inbox of a worker yet. The thread that accepts waits at this poller.
    #[tactic(auto, using(crate::proofs::MemorySteps::share_is))]
    fn with_acceptor(
        alloc: Global,
        acceptor: &Poller,
        workers: usize,
        bounds: Bounds,
        metrics: &'p Metrics,
    ) -> io::Result<WorkerPool<'p>>
        ensures { IfOk result (λ pool. pool ≡ record { proxy = bounds.proxy; memory = share_of bounds.memory workers }) }
    {
        let counts = Counts::none(alloc, workers, bounds.sessions)?;
        let inboxes = Vec::with_capacity(alloc, workers)?;
        let waker = acceptor.waker()?;
        Ok(WorkerPool {
            bounds,
            memory: bounds.memory.checked_div(workers).unwrap_or(0),
            metrics,
            counts: Mutex::new(counts),
            inboxes,
            acceptor: waker,
        })
    }

    /// Makes an inbox for each worker, and returns their pollers.
    fn open_inboxes(
        &mut self,
        rt: &impl Net,
        alloc: Global,
        workers: usize,
    ) -> io::Result<Vec<Poller>>
        ensures { self.new ≡ self.old }
    {
        let mut pollers = Vec::with_capacity(alloc, workers)?;
        for _ in 0..workers {
            let poller = Poller::new(rt, alloc, WORKER_EVENTS)?;
            let inbox = Inbox::of(alloc, &poller)?;
            self.inboxes.push(inbox)?;
            pollers.push(poller)?;
        }
        Ok(pollers)
    }

    /// Ends the service: no connection is accepted any more, and each session ends after the lines that were read.
    pub fn stop(&self, rt: &impl Wait) {
        self.counts.lock(rt).stopped = true;
        self.wake_all();
    }

    /// Whether the service was stopped.
    pub(crate) fn is_stopped(&self, rt: &impl Wait) -> bool {
        self.counts.lock(rt).stopped
    }

    /// Whether no more sessions begin.
    pub(crate) fn is_closing(&self, rt: &impl Wait) -> bool {
        let counts = self.counts.lock(rt);
        counts.stopped || counts.sessions == 0
    }

    /// How long a connection may ask nothing, if there is a limit.
    pub(crate) fn idle(&self) -> Option<Duration> {
        self.bounds.idle
    }

    /// The most bytes that the buffers of a worker's connections take.
    pub(crate) fn memory(&self) -> usize
        ensures { result ≡ self.now.memory }
    {
        self.memory
    }

    /// Whether the gateway's header names a user or an authorisation, if each connection begins with one.
    pub(crate) fn proxy(&self) -> Option<NameOf>
        ensures { result ≡ self.now.proxy }
    {
        self.bounds.proxy
    }

    /// The counts of this moment. They change when a connection begins or ends and when a session begins, not with each line.
    ///
    /// # Errors
    ///
    /// There is no memory for the list of workers.
    pub fn load(&self, rt: &impl Wait, alloc: Global) -> Result<Load, AllocError> {
        let mut workers = Vec::with_capacity(alloc, self.inboxes.len())?;
        let counts = self.counts.lock(rt);
        for open in &counts.workers {
            workers.push(*open)?;
        }
        Ok(Load {
            open: counts.open,
            workers,
            sessions: counts.begun,
        })
    }

    /// The worker for which the connection of this number is accepted: the workers take turns.
    pub(crate) fn worker_of(&self, number: usize) -> usize {
        number.checked_rem(self.inboxes.len()).unwrap_or(0)
    }

    /// Counts a connection that was accepted for a worker, if one more may be open. The result is whether it may.
    pub(crate) fn enter(&self, rt: &impl Wait, worker: usize) -> bool {
        let mut counts = self.counts.lock(rt);
        let enters = counts.open < self.bounds.connections;
        if enters {
            counts.enter(worker);
            self.metrics(worker).note_accepted();
        } else {
            self.metrics(worker).note_fault(Fault::Busy);
        }
        enters
    }

    /// Counts a connection of a worker no more.
    pub(crate) fn leave(&self, rt: &impl Wait, worker: usize) {
        self.counts.lock(rt).leave(worker);
        self.metrics(worker).note_ended();
    }

    /// The metrics of the worker of this number.
    pub(crate) fn metrics(&self, worker: usize) -> WorkerMetrics<'p> {
        self.metrics.worker(worker)
    }

    /// Counts a session in which a line is to be served, if one more may begin. The result is whether it may. The last one
    /// wakes all threads.
    pub(crate) fn begin_session(&self, rt: &impl Wait) -> bool {
        let mut counts = self.counts.lock(rt);
        if counts.sessions == 0 {
            return false;
        }
        if self.bounds.sessions < u64::MAX {
            counts.sessions = counts.sessions.saturating_sub(1);
        }
        counts.begun = counts.begun.saturating_add(1);
        let was_last = counts.sessions == 0;
        drop(counts);
        self.metrics.note_session();
        if was_last {
            self.wake_all();
        }
        true
    }

    /// Hands a connection to a worker.
    pub(crate) fn assign(&self, rt: &impl Wait, worker: usize, accepted: Accepted) {
        let Some(inbox) = self.inboxes.get(worker) else {
            return;
        };
        match inbox.accepted.lock(rt).push(accepted) {
            Ok(()) => {}
            Err(_) => self.leave(rt, worker),
        }
        let _full = inbox.waker.wake();
    }

    /// A connection that was accepted for a worker.
    pub(crate) fn next_accepted(&self, rt: &impl Wait, worker: usize) -> Option<Accepted> {
        self.inboxes.get(worker)?.accepted.lock(rt).pop()
    }

    /// Ends the wait of each thread. A thread that was woken before needs no more.
    fn wake_all(&self) {
        let _full = self.acceptor.wake();
        for inbox in &self.inboxes {
            let _full = inbox.waker.wake();
        }
    }
}
