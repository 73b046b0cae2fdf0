//! One connection of a worker.
ghost use Rattle.std.specs.Prelude.{◌≡◌, ◌-◌, None, Some, IfOk};
ghost use Rattle.nmvs_connections.specs.declared.peer_session.Stage.TheVariants as stages;
ghost use Rattle.nmvs_connections.specs.Memory.{CountsMemory, account_of, is_counted};
ghost use Rattle.nmvs_connections.specs.Peers.{IsConnection, IsLater, Rests, kept_bytes};
ghost use Rattle.nmvs_connections.specs.Turns.{ConnectionSteps, Kept, TellsOwn};

use crate::next::Next;
use crate::origin::origin_of;
use crate::peer_session::{PeerSession, Stage};
use crate::scratch::Scratch;
use crate::socket::Moved;
use crate::worker_pool::{Accepted, WorkerPool};
use mio::Registry;
use nmvs_identifier::Name;
use nmvs_messages::{Desk, End, LineList, NameOf, Released, WithheldAnswers};
use std::alloc::{AllocError, Global};
use std::io;
use std::sync::Wait;
use std::time::{Duration, Instant};

/// For how many seconds replies wait for a peer that takes none of them (own).
const SENDING: u64 = 30;

/// For how many seconds a connection is read on after the end of its session, and replies wait once the service is
/// stopped (own).
const PATIENCE: u64 = 1;

/// For how many seconds the header of a gateway is waited for (own).
const HEADER_TIMEOUT: u64 = 5;

/// For how many seconds the LF of a line is waited for, from its first byte on (own).
const LINE_TIMEOUT: u64 = 30;

/// One connection of a worker: the session of its peer, and what the system reports of it.
#[derive(Drop)]
pub(crate) struct Connection<L: LineList> {
    /// The number of the connection, in the order in which they were accepted.
    pub(crate) number: usize,
    /// The name of the address that it comes from.
    origin: Name,
    session: PeerSession<L>,
    /// Whether the peer asked nothing for too long.
    was_idle: bool,
    /// When bytes were moved last. Bytes that only go on with a header or a line do not count.
    moved: Instant,
    /// Whether the peer ended or broke the connection, so that it is read to its end.
    peer_closed: bool,
    stopped: bool,
    /// Whether its turn comes.
    pub(crate) queued: bool,
    /// The memory of its buffers at the last count, in bytes.
    pub(crate) memory: usize,
    /// Whether a line or a request of it had not come whole at the last count.
    unfinished: bool,
}

impl<L: LineList> Connection<L> {
    /// A connection, which begins with a gateway's header if `proxy` says whose name that has.
    ///
    /// # Errors
    ///
    /// There is no memory for it.
    pub(crate) fn new(
        alloc: Global,
        accepted: Accepted,
        proxy: Option<NameOf>,
        now: Instant,
    ) -> Result<Connection<L>, AllocError>
        ensures { IfOk result (λ connection. IsConnection connection.session × (connection.session.proxy ≡ proxy) × (connection.memory ≡ 0)) }
    {
        let number = accepted.number;
        let origin = origin_of(alloc, accepted.address)?;
        let session = PeerSession::new(alloc, accepted, proxy)?;
        session.note_bytes();
        Ok(Connection {
            number,
            origin,
            session,
            was_idle: false,
            moved: now,
            peer_closed: false,
            stopped: false,
            queued: false,
            memory: 0,
            unfinished: false,
        })
    }

    /// Registers the connection with a poll, under the key.
    pub(crate) fn register(&mut self, registry: &Registry, key: usize) -> io::Result<()>
        ensures { (self.new.session ≡ self.old.session) × (self.new.memory ≡ self.old.memory) }
    {
        self.session.register(registry, key)
    }

    /// Counts the memory of its buffers anew. The result is the memory of the buffers of all connections, which was this
    /// before.
    pub(crate) fn count_memory(&mut self, all: usize) -> usize
        ensures session { self.new.session ≡ self.old.session }
        ensures all { CountsMemory (kept_bytes self.new.session) (all - self.old.memory) self.new.memory result }
    {
        let others = all.saturating_sub(self.memory);
        self.memory = self.session.memory().min(usize::MAX - others);
        self.unfinished = self.session.has_pending_line();
        others + self.memory
    }

    /// The name under which the memory of its buffers is counted: that of the peer's certificate, or else that of its address.
    pub(crate) fn account(&self) -> Name
        ensures { result ≡ account_of self.now }
    {
        self.session.name().unwrap_or(self.origin)
    }

    /// Whether it is one of those under this name. If `unfinished`, a line or a request of it has not come whole.
    pub(crate) fn is_counted(&self, name: &Name, unfinished: bool) -> bool
        ensures { result ≡ is_counted name.now unfinished self.now }
    {
        (self.unfinished || !unfinished) && self.account() == *name
    }

    /// Notes that its bytes are those of a header, of lines and of replies.
    pub(crate) fn note_bytes(&self)
        ensures { IsConnection self.now.session }
    {
        self.session.note_bytes();
    }

    /// Notes if the peer ended or broke the connection.
    pub(crate) fn note_closed(&mut self, closed: bool)
        ensures { (self.new.session ≡ self.old.session) × (self.new.memory ≡ self.old.memory) }
    {
        self.peer_closed = self.peer_closed || closed;
    }

    /// Whether it is served to its end: one of its lines was served, or the service was stopped.
    pub(crate) fn is_served(&self) -> bool {
        self.stopped || self.session.is_served()
    }

    /// The reason that the log gives if the connection ends now.
    pub(crate) fn reason(&self) -> &'static str {
        if self.session.awaited_header().is_some() {
            return "header";
        }
        if self.was_idle {
            return "idle";
        }
        match self.session.end() {
            Some(End::Quit) => "quit",
            Some(_) => "memory",
            None if self.stopped => "stopped",
            None if self.session.is_sent() || self.peer_closed => "ended by the peer",
            None => "does not read",
        }
    }

    /// Notes if the session ends after the lines that were read.
    pub(crate) fn note_stopped(&mut self, stopped: bool)
        ensures { (self.new.session ≡ self.old.session) × (self.new.memory ≡ self.old.memory) }
    {
        self.stopped = self.stopped || stopped;
    }

    /// Sends the unsent bytes. Then it sends a piece of a list, takes the lines of one read, or a step towards the end.
    pub(crate) fn take_turn<R: Wait, D: Desk<List = L>>(
        &mut self,
        rt: &R,
        pool: &WorkerPool<'_>,
        scratch: &mut Scratch,
        withheld: &mut WithheldAnswers,
        desk: &mut D,
    ) -> Next
        ensures memory { self.new.memory ≡ self.old.memory }
        ensures steps { ConnectionSteps D.takes desk.old desk.new withheld.old withheld.new result self.old.session self.new.session }
    {
        match self.send(scratch.now) {
            Next::Again => {}
            other => return other,
        }
        if !self.session.is_sent() {
            return Next::Again;
        }
        if self.session.is_listing() {
            return self.send_piece(scratch, desk);
        }
        self.session.exchange(&mut Vec::new(scratch.alloc));
        self.step(rt, pool, scratch, withheld, desk)
    }

    /// Fetches a piece of the list, and sends it. Without memory for it the connection is closed.
    fn send_piece<D: Desk<List = L>>(&mut self, scratch: &mut Scratch, desk: &D) -> Next
        requires told { self.old.session.session.waiting ≡ 0 }
        ensures kept { Kept self.old.session.session self.new.session.session }
        ensures rests { Rests self.old.session self.new.session }
        ensures memory { self.new.memory ≡ self.old.memory }
    {
        if self.session.more(scratch, desk).is_err() {
            return Next::Close;
        }
        let next = self.send(scratch.now);
        if self.session.is_sent() {
            self.session.exchange(&mut scratch.room);
        }
        next
    }

    /// Takes the lines of one read, or a step towards the end.
    #[tactic(auto, using(crate::proofs::ConnectionLemmas::steps_idle, crate::proofs::ConnectionLemmas::steps_resting))]
    fn step<R: Wait, D: Desk<List = L>>(
        &mut self,
        rt: &R,
        pool: &WorkerPool<'_>,
        scratch: &mut Scratch,
        withheld: &mut WithheldAnswers,
        desk: &mut D,
    ) -> Next
        ensures steps { ConnectionSteps D.takes desk.old desk.new withheld.old withheld.new result self.old.session self.new.session }
        ensures memory { self.new.memory ≡ self.old.memory }
    {
        match self.session.stage() {
            Stage::Serving => {}
            Stage::Ending => return self.shutdown_write(scratch.now),
            Stage::Lingering => return self.session.linger(&mut scratch.buffer),
        }
        if let Some(name_of) = self.session.awaited_header() {
            return self.read_header(name_of, scratch);
        }
        if self.stopped && !self.session.has_unread() {
            self.session.stop_serving();
            return Next::Again;
        }
        let was_pending = self.session.has_pending_line();
        let (buffer, reports) = (&mut scratch.buffer, !scratch.reported);
        let next = self.session.take(rt, pool, buffer, reports, withheld, desk);
        scratch.reported = scratch.reported || withheld.ends_long();
        let goes_on = was_pending && !self.session.is_waiting();
        let begins = !was_pending && self.session.has_pending_line();
        self.note_moved(
            (next.waits_for_release() && !goes_on) || begins,
            scratch.now,
        );
        next
    }

    /// Reads more of a gateway's header. If the service was stopped, the connection is closed.
    fn read_header(&mut self, name_of: NameOf, scratch: &mut Scratch) -> Next
        requires awaited { self.old.session.peer ≡ None }
        requires proxy { self.old.session.proxy ≡ Some name_of }
        requires serving { self.old.session.stage ≡ stages.Serving }
        ensures session { self.new.session.session ≡ self.old.session.session }
        ensures later { IsLater self.old.session self.new.session }
        ensures memory { self.new.memory ≡ self.old.memory }
    {
        if self.stopped {
            return Next::Close;
        }
        let next = self
            .session
            .read_header(scratch.alloc, name_of, &mut scratch.buffer);
        let is_whole = self.session.awaited_header().is_none();
        self.note_moved(is_whole, scratch.now);
        next
    }

    /// Shuts down the write side, after a notice if the peer was idle.
    fn shutdown_write(&mut self, now: Instant) -> Next
        requires { self.old.session.stage ≡ stages.Ending }
        ensures session { self.new.session.session ≡ self.old.session.session }
        ensures rests { Rests self.old.session self.new.session }
        ensures memory { self.new.memory ≡ self.old.memory }
    {
        self.moved = now;
        if self.was_idle {
            self.session.shutdown_idle();
        } else {
            self.session.shutdown_write();
        }
        Next::Again
    }

    /// Notes that bytes were moved now, if they were.
    fn note_moved(&mut self, moved: bool, now: Instant)
        ensures session { self.new.session ≡ self.old.session }
        ensures memory { self.new.memory ≡ self.old.memory }
    {
        if moved {
            self.moved = now;
        }
    }

    /// Sends as many of the unsent bytes as the system takes.
    fn send(&mut self, now: Instant) -> Next
        ensures kept { Kept self.old.session.session self.new.session.session }
        ensures rests { Rests self.old.session self.new.session }
        ensures memory { self.new.memory ≡ self.old.memory }
    {
        if self.session.is_sent() {
            return Next::Again;
        }
        match self.session.send() {
            Moved::Bytes(_) => {
                self.moved = now;
                Next::Again
            }
            Moved::Blocked => Next::WaitIo,
            Moved::Over => Next::Close,
        }
    }

    /// Turns its part of the released answers into replies, and sends them. More may be there to be read at once.
    pub(crate) fn tell(&mut self, scratch: &mut Scratch, released: &Released<'_>) -> Next
        ensures tells { TellsOwn released.now self.old.session.session self.new.session.session }
        ensures rests { Rests self.old.session self.new.session }
        ensures memory { self.new.memory ≡ self.old.memory }
    {
        self.session.tell(scratch, released);
        match self.send(scratch.now) {
            Next::Again => {}
            other => return other,
        }
        if !self.session.is_sent() {
            return Next::Again;
        }
        self.session.exchange(&mut scratch.room);
        let goes_on = self.session.stage() != Stage::Serving || self.session.is_listing();
        if self.session.may_have_more() || self.peer_closed || goes_on {
            Next::Again
        } else {
            Next::WaitIo
        }
    }

    /// The next step of the connection by the time that has passed.
    pub(crate) fn check_timeouts(&mut self, now: Instant, idle: Option<Duration>) -> Next
        ensures rests { Rests self.old.session self.new.session }
        ensures memory { self.new.memory ≡ self.old.memory }
    {
        let age = now.duration_since(self.moved);
        let stage = self.session.stage();
        if stage == Stage::Lingering {
            return close_after(age, PATIENCE);
        }
        if stage == Stage::Serving && self.session.awaited_header().is_some() {
            return close_after(age, HEADER_TIMEOUT);
        }
        if !self.session.is_sent() {
            return close_after(age, if self.stopped { PATIENCE } else { SENDING });
        }
        if stage == Stage::Serving && self.is_idle(age, idle) {
            self.was_idle = true;
            self.session.stop_idle();
            return Next::Again;
        }
        Next::WaitIo
    }

    /// Whether it asked nothing for too long: a line that was begun has to end in time, whatever the operator chose.
    fn is_idle(&self, age: Duration, idle: Option<Duration>) -> bool {
        if self.session.has_pending_line() && age.as_secs() >= LINE_TIMEOUT {
            return true;
        }
        match idle {
            Some(most) => age >= most,
            None => false,
        }
    }
}

/// A connection that waited so long is closed after this number of seconds.
fn close_after(age: Duration, most: u64) -> Next {
    if age.as_secs() >= most {
        Next::Close
    } else {
        Next::WaitIo
    }
}
