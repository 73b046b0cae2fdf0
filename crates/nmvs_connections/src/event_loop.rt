//! The loop of a worker.
ghost use Rattle.std.specs.Prelude.{◌≡◌, ◌≢◌, ◌≤◌, ◌<◌, ◌-◌, ◌^◌, ◌⊎◌, ◌++◌, ◌∷◌, [], ℕ, Option, Some, None, IsSome, IfOk};
ghost use Rattle.std.specs.List.{Contains};
ghost use Rattle.slab.specs.Slab.{get, slab_len};
ghost use Rattle.nmvs_connections.specs.declared.connection.Connection.{Connection as TheConnection};
ghost use Rattle.nmvs_connections.specs.Memory.{IsCounted, IsEvictedFirst, IsLargest, TakeAtMost};
ghost use Rattle.nmvs_messages.specs.declared.peer.NameOf.{NameOf as TheNameOf};
ghost use Rattle.nmvs_connections.specs.Peers.{kept_bytes};
ghost use Rattle.nmvs_connections.specs.Turns.{AllBehind, EachGoes, OnlyCloses, Stays, WaitsForRelease, TellsAll, TellsPeer, TellsWhereAsked, TurnOfOne, WorkerTurn};

use crate::accounts::{heaviest, largest_of};
use crate::connection::Connection;
use crate::next::Next;
use crate::scratch::Scratch;
use crate::worker_pool::{Accepted, Poller, WAKE, WorkerPool};
use log::{Log, debug, warn};
use mio::event::Event;
use mio::{Events, Registry};
use nmvs_messages::{Desk, Fault, LineList, Released, WithheldAnswers};
use slab::Slab;
use std::alloc::{AllocError, Global};
use std::rt::Clock;
use std::sync::Wait;
use std::time::{Duration, Instant};
use std::{io, mem};

/// Seconds from one search of a worker for connections that waited too long to the next (own).
const TICK: u64 = 1;

/// Serves the connections that are accepted for the worker of this number, until the pool is closed and each session has ended.
///
/// # Errors
///
/// The system refused to wait, the clock can't be read, or there is no memory for a piece of a list.
pub fn serve<R: Wait + Clock + Log, D: Desk>(
    rt: &R,
    alloc: Global,
    pool: &WorkerPool<'_>,
    worker: usize,
    poller: Poller,
    desk: &mut D,
) -> io::Result<()> {
    let mut poller = poller;
    let mut scratch = Scratch::new(alloc, Instant::now(rt)?)?;
    let mut event_loop = EventLoop::<D::List>::new(alloc, worker, scratch.now);
    event_loop.serve_all(rt, pool, &mut poller, &mut scratch, desk)
}

/// The connections of a worker, and whose turns come.
#[derive(Drop)]
struct EventLoop<L: LineList> {
    alloc: Global,
    /// The number of the worker.
    worker: usize,
    connections: Slab<Connection<L>>,
    turns: Vec<usize>,
    later: Vec<usize>,
    /// The keys of the connections whose answers wait for the release.
    awaiting: Vec<usize>,
    /// When the worker last looked for connections that waited too long.
    looked: Instant,
    /// Whether no more sessions begin.
    closing: bool,
    /// The memory of the buffers of all connections at their last counts, in bytes.
    memory: usize,
    /// The number of connections that were closed for it since the last line of the log about them.
    evicted: usize,
}

impl<L: LineList> EventLoop<L> {
    fn new(alloc: Global, worker: usize, now: Instant) -> EventLoop<L>
        ensures behind { (proxy : Option TheNameOf) → AllBehind proxy result.connections }
        ensures counted { IsCounted result }
    {
        EventLoop {
            alloc,
            worker,
            connections: Slab::new(alloc),
            turns: Vec::new(alloc),
            later: Vec::new(alloc),
            awaiting: Vec::new(alloc),
            looked: now,
            closing: false,
            memory: 0,
            evicted: 0,
        }
    }

    /// Serves the connections until the pool is closed and each session has ended.
    fn serve_all<R: Wait + Clock + Log, D: Desk<List = L>>(
        &mut self,
        rt: &R,
        pool: &WorkerPool<'_>,
        poller: &mut Poller,
        scratch: &mut Scratch,
        desk: &mut D,
    ) -> io::Result<()>
        requires behind { AllBehind pool.now.proxy self.old.connections }
        requires counted { IsCounted self.old }
    {
        let mut withheld = WithheldAnswers::new();
        for _ in 0..u64::MAX {
            poller.poll.poll(&mut poller.events, self.poll_timeout())?;
            scratch.now = Instant::now(rt)?;
            self.note_reports(rt, pool, poller, scratch);
            self.take_turns(rt, pool, scratch, &mut withheld, desk);
            pool.metrics(self.worker).note_memory(self.memory);
            self.check_timeouts(rt, pool, scratch.now);
            if self.closing && self.connections.is_empty() {
                self.log_evicted(rt);
                return Ok(());
            }
        }
        Ok(())
    }

    /// How long the worker may wait for the system's reports.
    fn poll_timeout(&self) -> Option<Duration> {
        if !self.turns.is_empty() {
            Some(Duration::ZERO)
        } else if self.connections.is_empty() && self.evicted == 0 {
            None
        } else {
            Some(Duration::from_secs(TICK))
        }
    }

    /// Notes the system's reports. If the worker was woken, checks whether the service ends, and admits new connections.
    fn note_reports<R: Wait + Log>(
        &mut self,
        rt: &R,
        pool: &WorkerPool<'_>,
        poller: &Poller,
        scratch: &Scratch,
    )
        ensures behind { AllBehind pool.now.proxy self.old.connections → AllBehind pool.now.proxy self.new.connections }
        ensures counted { IsCounted self.old → IsCounted self.new }
    {
        if !self.note_all(&poller.events) {
            return;
        }
        self.check_shutdown(rt, pool);
        self.admit_all(rt, pool, poller.poll.registry(), scratch);
    }

    /// Notes the system's reports. The result is whether the worker was woken.
    fn note_all(&mut self, events: &Events) -> bool
        ensures { Stays self.old self.new }
    {
        let mut woken = false;
        for event in events {
            woken = self.note(event) || woken;
        }
        woken
    }

    /// Notes a report of the system. The result is whether it wakes the worker.
    fn note(&mut self, event: &Event) -> bool
        ensures { Stays self.old self.new }
    {
        let token = event.token();
        if token == WAKE {
            return true;
        }
        let Some(connection) = self.connections.get_mut(token.0) else {
            return false;
        };
        connection.note_closed(event.is_read_closed() || event.is_error());
        self.queue(token.0);
        false
    }

    /// Queues a connection for its turn, if it is not queued yet.
    fn queue(&mut self, key: usize)
        ensures { Stays self.old self.new }
    {
        let Some(connection) = self.connections.get_mut(key) else {
            return;
        };
        if !connection.queued {
            // Room was made when the connection was admitted.
            connection.queued = self.turns.push(key).is_ok();
        }
    }

    /// Admits the connections that were accepted for the worker.
    fn admit_all<R: Wait + Log>(
        &mut self,
        rt: &R,
        pool: &WorkerPool<'_>,
        registry: &Registry,
        scratch: &Scratch,
    )
        ensures behind { AllBehind pool.now.proxy self.old.connections → AllBehind pool.now.proxy self.new.connections }
        ensures counted { IsCounted self.old → IsCounted self.new }
    {
        for _ in 0..u64::MAX {
            let Some(accepted) = pool.next_accepted(rt, self.worker) else {
                return;
            };
            if self.closing {
                pool.leave(rt, self.worker);
                continue;
            }
            if self.admit(pool, registry, accepted, scratch).is_err() {
                pool.leave(rt, self.worker);
            }
        }
    }

    fn admit(
        &mut self,
        pool: &WorkerPool<'_>,
        registry: &Registry,
        accepted: Accepted,
        scratch: &Scratch,
    ) -> io::Result<()>
        ensures behind { AllBehind pool.now.proxy self.old.connections → AllBehind pool.now.proxy self.new.connections }
        ensures counted { IsCounted self.old → IsCounted self.new }
    {
        let most = self.connections.len().saturating_add(1);
        self.turns.reserve(most)?;
        self.later.reserve(most)?;
        self.awaiting.reserve(most)?;
        let mut connection = Connection::new(scratch.alloc, accepted, pool.proxy(), scratch.now)?;
        connection.register(registry, self.connections.vacant_key())?;
        match self.connections.insert(connection) {
            Ok(_key) => Ok(()),
            Err(_) => Err(io::Error::from(AllocError)),
        }
    }

    /// Checks whether the service ends.
    fn check_shutdown<R: Wait + Log>(&mut self, rt: &R, pool: &WorkerPool<'_>)
        ensures { Stays self.old self.new }
    {
        if !pool.is_closing(rt) {
            return;
        }
        self.closing = true;
        let stopped = pool.is_stopped(rt);
        for key in 0..self.connections.capacity() {
            self.end(rt, pool, key, stopped);
        }
    }

    /// Queues a connection that is served to its end, and closes any other one. If the service was stopped, the connection ends
    /// after the lines that were read.
    fn end<R: Wait + Log>(&mut self, rt: &R, pool: &WorkerPool<'_>, key: usize, stopped: bool)
        ensures { Stays self.old self.new }
    {
        let Some(connection) = self.connections.get_mut(key) else {
            return;
        };
        connection.note_stopped(stopped);
        if connection.is_served() {
            self.queue(key);
        } else {
            self.remove(rt, pool, key);
        }
    }

    /// Gives each queued connection its turn, and at most one of them a report. Their answers are released together, unless the
    /// list of them is full or an answer may be long.
    fn take_turns<R: Wait + Log, D: Desk<List = L>>(
        &mut self,
        rt: &R,
        pool: &WorkerPool<'_>,
        scratch: &mut Scratch,
        withheld: &mut WithheldAnswers,
        desk: &mut D,
    )
        requires none_withheld { withheld.old ≡ [] }
        requires behind { AllBehind pool.now.proxy self.old.connections }
        ensures none_withheld { withheld.new ≡ [] }
        ensures behind { AllBehind pool.now.proxy self.new.connections }
        ensures counted { IsCounted self.old → IsCounted self.new }
        ensures turn { WorkerTurn pool.now.proxy D.takes D.releases D.moves desk.old desk.new self.old.connections self.new.connections }
    {
        scratch.reported = false;
        let mut first = 0;
        for index in 0..self.turns.len() {
            let Some(key) = self.turns.get(index).copied() else {
                continue;
            };
            if !self.take_turn(rt, pool, key, scratch, withheld, desk) {
                continue;
            }
            self.tell_all(rt, pool, scratch, withheld, desk);
            if scratch.reported && first == 0 {
                first = self.later.len();
            }
        }
        self.tell_all(rt, pool, scratch, withheld, desk);
        self.turns.clear();
        // The connections that wait for a report come first.
        let first = first.min(self.later.len());
        self.later.rotate_left(first);
        mem::swap(&mut self.turns, &mut self.later);
    }

    /// Gives a connection its turn. The result is whether the withheld answers are released before the next turn.
    fn take_turn<R: Wait + Log, D: Desk<List = L>>(
        &mut self,
        rt: &R,
        pool: &WorkerPool<'_>,
        key: usize,
        scratch: &mut Scratch,
        withheld: &mut WithheldAnswers,
        desk: &mut D,
    ) -> bool
        ensures counted { IsCounted self.old → IsCounted self.new }
        ensures turn { TurnOfOne D.takes key desk.old desk.new withheld.old withheld.new self.old.awaiting.items self.new.awaiting.items self.old.connections self.new.connections }
    {
        let Some(connection) = self.connections.get_mut(key) else {
            return false;
        };
        connection.queued = false;
        let next = connection.take_turn(rt, pool, scratch, withheld, desk);
        connection.note_bytes();
        self.dispatch(rt, pool, key, next);
        next == Next::ReleaseNow
    }

    /// Takes the next step of a connection after its turn.
    fn dispatch<R: Wait + Log>(&mut self, rt: &R, pool: &WorkerPool<'_>, key: usize, next: Next)
        ensures asks { WaitsForRelease next → (connection : TheConnection L) → get self.new.connections key ≡ Some connection → Contains self.new.awaiting.items key }
        ensures still { (other : ℕ) → Contains self.old.awaiting.items other → Contains self.new.awaiting.items other }
        ensures connections { EachGoes (λ key state state'. state' ≡ state) self.old.connections self.new.connections }
        ensures counted { IsCounted self.old → IsCounted self.new }
    {
        match next {
            Next::WaitRelease | Next::ReleaseNow => self.note_awaiting(rt, pool, key),
            Next::Again | Next::WaitIo | Next::Close => self.go_on(rt, pool, key, next),
        }
    }

    /// The desk releases the withheld answers, once for all connections that wait for them, and each connection sends its own.
    /// If nothing is withheld, the desk is not asked.
    fn tell_all<R: Wait + Log, D: Desk<List = L>>(
        &mut self,
        rt: &R,
        pool: &WorkerPool<'_>,
        scratch: &mut Scratch,
        withheld: &mut WithheldAnswers,
        desk: &mut D,
    )
        ensures none_withheld { withheld.new ≡ [] }
        ensures none_asks { self.new.awaiting.items ≡ [] }
        ensures counted { IsCounted self.old → IsCounted self.new }
        ensures tells { TellsAll D.releases D.moves desk.old desk.new withheld.old self.old.awaiting.items self.old.connections self.new.connections }
    {
        if withheld.len() == 0 {
            self.tell_each(rt, pool, scratch, &withheld.release());
            return;
        }
        let released = desk.release(withheld);
        pool.metrics(self.worker).note_answers(&released);
        self.tell_each(rt, pool, scratch, &released);
        withheld.clear();
    }

    /// Each connection that waits sends its own of the released answers.
    fn tell_each<R: Wait + Log>(
        &mut self,
        rt: &R,
        pool: &WorkerPool<'_>,
        scratch: &mut Scratch,
        released: &Released<'_>,
    )
        ensures none_asks { self.new.awaiting.items ≡ [] }
        ensures counted { IsCounted self.old → IsCounted self.new }
        ensures tells { EachGoes (TellsWhereAsked released.now self.old.awaiting.items) self.old.connections self.new.connections }
    {
        while let Some(key) = self.awaiting.pop() {
            self.tell(rt, pool, key, scratch, released);
        }
    }

    /// A connection sends its own of the released answers.
    fn tell<R: Wait + Log>(
        &mut self,
        rt: &R,
        pool: &WorkerPool<'_>,
        key: usize,
        scratch: &mut Scratch,
        released: &Released<'_>,
    )
        ensures awaiting { self.new.awaiting ≡ self.old.awaiting }
        ensures counted { IsCounted self.old → IsCounted self.new }
        ensures tells { EachGoes (λ other state state'. (other ≡ key → TellsPeer released.now state state') × (other ≢ key → state' ≡ state)) self.old.connections self.new.connections }
    {
        let Some(connection) = self.connections.get_mut(key) else {
            return;
        };
        let next = connection.tell(scratch, released);
        connection.note_bytes();
        self.go_on(rt, pool, key, next);
    }

    /// Takes the next step of a connection that waits for no release. If the buffers of all connections take too much memory
    /// then, some connections are closed.
    fn go_on<R: Wait + Log>(&mut self, rt: &R, pool: &WorkerPool<'_>, key: usize, next: Next)
        ensures closes { OnlyCloses self.old self.new }
        ensures memory { TakeAtMost pool.now.memory self.new.connections self.new.memory }
    {
        self.count_memory(key);
        self.queue_or_close(rt, pool, key, next);
        self.evict(rt, pool, pool.memory());
    }

    /// Counts the memory of the buffers of a connection anew.
    fn count_memory(&mut self, key: usize)
        ensures closes { OnlyCloses self.old self.new }
        ensures own { (connection : TheConnection L) → get self.new.connections key ≡ Some connection → (kept_bytes connection.session ≤ connection.memory) ⊎ (self.new.memory ≡ 2 ^ 64 - 1) }
    {
        if let Some(connection) = self.connections.get_mut(key) {
            self.memory = connection.count_memory(self.memory);
        }
    }

    /// Queues the next turn of a connection, or closes it.
    fn queue_or_close<R: Wait + Log>(
        &mut self,
        rt: &R,
        pool: &WorkerPool<'_>,
        key: usize,
        next: Next,
    )
        ensures closes { OnlyCloses self.old self.new }
    {
        match next {
            Next::Again => self.queue_later(key),
            Next::Close => self.remove(rt, pool, key),
            Next::WaitIo | Next::WaitRelease | Next::ReleaseNow => {}
        }
    }

    /// Notes that a connection waits for the release. If there is no room for the note, it is closed.
    fn note_awaiting<R: Wait + Log>(&mut self, rt: &R, pool: &WorkerPool<'_>, key: usize)
        ensures asks { (connection : TheConnection L) → get self.new.connections key ≡ Some connection → self.new.awaiting.items ≡ self.old.awaiting.items ++ key ∷ [] }
        ensures still { (other : ℕ) → Contains self.old.awaiting.items other → Contains self.new.awaiting.items other }
        ensures connections { EachGoes (λ key state state'. state' ≡ state) self.old.connections self.new.connections }
        ensures counted { IsCounted self.old → IsCounted self.new }
    {
        // Room was made when the connection was admitted.
        if self.awaiting.push(key).is_err() {
            self.remove(rt, pool, key);
        }
    }

    fn queue_later(&mut self, key: usize)
        ensures closes { OnlyCloses self.old self.new }
    {
        if let Some(connection) = self.connections.get_mut(key) {
            connection.queued = self.later.push(key).is_ok();
        }
    }

    /// Closes connections, at each step the largest of the peer that keeps most, until the buffers of all take no more than this.
    /// If memory for the counts is refused, it is the largest of all.
    fn evict<R: Wait + Log>(&mut self, rt: &R, pool: &WorkerPool<'_>, most: usize)
        ensures closes { OnlyCloses self.old self.new }
        ensures within { self.old.memory ≤ most → self.new ≡ self.old }
        ensures memory { TakeAtMost most self.new.connections self.new.memory }
    {
        while self.memory > most {
            let first = match self.first_evicted() {
                Ok(first) => first,
                Err(_) => self.largest(),
            };
            let Some(key) = first else {
                return;
            };
            self.evicted = self.evicted.saturating_add(1);
            pool.metrics(self.worker).note_evicted();
            self.close(rt, pool, key, "evicted");
        }
    }

    /// The key of the connection that is closed first for want of memory, if any takes some. It is of the peer that
    /// keeps most. It is the largest of its connections on which a line or a request has not come whole. Without such a
    /// connection it is the largest of all.
    ///
    /// # Errors
    ///
    /// Memory for the counts was refused.
    fn first_evicted(&self) -> Result<Option<usize>, AllocError>
        ensures { IfOk result (λ key. IsEvictedFirst self.now.connections key) }
    {
        let Some(name) = heaviest(&self.connections, self.alloc)? else {
            return Ok(None);
        };
        match largest_of(&self.connections, &name, true) {
            Some(key) => Ok(Some(key)),
            None => Ok(largest_of(&self.connections, &name, false)),
        }
    }

    /// The key of the connection whose buffers take most memory, if any take some.
    fn largest(&self) -> Option<usize>
        ensures { IsLargest self.now.connections result }
    {
        let mut most = 0;
        let mut largest = None;
        for (key, connection) in self.connections.iter() {
            if connection.memory > most {
                most = connection.memory;
                largest = Some(key);
            }
        }
        largest
    }

    /// Closes a connection at its end.
    fn remove<R: Wait + Log>(&mut self, rt: &R, pool: &WorkerPool<'_>, key: usize)
        ensures gone { get self.new.connections key ≡ None }
        ensures closes { OnlyCloses self.old self.new }
    {
        self.close(rt, pool, key, self.reason(key));
    }

    /// Closes a connection, and logs this reason.
    fn close<R: Wait + Log>(&mut self, rt: &R, pool: &WorkerPool<'_>, key: usize, reason: &str)
        ensures gone { get self.new.connections key ≡ None }
        ensures closes { OnlyCloses self.old self.new }
        ensures one { IsSome (get self.old.connections key) → slab_len self.new.connections < slab_len self.old.connections }
    {
        self.log_end(rt, key, reason);
        if let Some(connection) = self.connections.try_remove(key) {
            self.memory = self.memory.saturating_sub(connection.memory);
            pool.leave(rt, self.worker);
        }
    }

    /// The reason for which a connection ends now.
    fn reason(&self, key: usize) -> &'static str {
        match self.connections.get(key) {
            Some(connection) => connection.reason(),
            None => "",
        }
    }

    /// Logs that a connection ends, and why.
    fn log_end<R: Log>(&self, rt: &R, key: usize, reason: &str) {
        if let Some(connection) = self.connections.get(key) {
            debug!(rt; connection = connection.number, worker = self.worker, reason; "connection ends");
        }
    }

    /// Logs that connections were closed for their memory, if some were.
    fn log_evicted<R: Log>(&mut self, rt: &R)
        ensures { Stays self.old self.new }
    {
        if self.evicted == 0 {
            return;
        }
        let connections = mem::take(&mut self.evicted);
        warn!(rt; worker = self.worker, connections; "connections closed: their buffers took more than --connection-memory");
    }

    /// Looks for connections that waited too long, if a tick has passed.
    fn check_timeouts<R: Wait + Log>(&mut self, rt: &R, pool: &WorkerPool<'_>, now: Instant)
        ensures { Stays self.old self.new }
    {
        if now.duration_since(self.looked).as_secs() < TICK {
            return;
        }
        self.looked = now;
        self.log_evicted(rt);
        for key in 0..self.connections.capacity() {
            self.check_timeout(rt, pool, key, now);
        }
    }

    /// Queues or closes a connection that waited too long.
    fn check_timeout<R: Wait + Log>(
        &mut self,
        rt: &R,
        pool: &WorkerPool<'_>,
        key: usize,
        now: Instant,
    )
        ensures { Stays self.old self.new }
    {
        match self.next_by_time(key, now, pool.idle()) {
            Next::Again => {
                pool.metrics(self.worker).note_fault(Fault::Idle);
                self.queue(key);
            }
            Next::Close => self.remove(rt, pool, key),
            Next::WaitIo | Next::WaitRelease | Next::ReleaseNow => {}
        }
    }

    /// The next step of a connection by the time that has passed.
    fn next_by_time(&mut self, key: usize, now: Instant, idle: Option<Duration>) -> Next
        ensures { Stays self.old self.new }
    {
        let Some(connection) = self.connections.get_mut(key) else {
            return Next::WaitIo;
        };
        let next = connection.check_timeouts(now, idle);
        connection.note_bytes();
        next
    }
}
