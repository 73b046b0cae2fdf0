//! The session of the peer of a connection, over its bytes.
ghost use Rattle.std.specs.Prelude.{◌≡◌, ◌≢◌, ◌≤◌, ◌-◌, ◌^◌, ◌++◌, [], if◌then◌else◌, List, ℕ, Some, None, IfOk, IfSome, IsSome, is_some, length, min, take, true};
ghost use Rattle.nmvs_messages.specs.Peers.{TakesFrom};
ghost use Rattle.nmvs_messages.specs.declared.peer.Peer.TheVariants as peers;
ghost use Rattle.nmvs_connections.specs.declared.next.Next.{Next as TheNext};
ghost use Rattle.nmvs_connections.specs.declared.peer_session.Stage.TheVariants as stages;
ghost use Rattle.nmvs_connections.specs.LineStreams.{EndsIn, before_of, carried};
ghost use Rattle.nmvs_connections.specs.Memory.{name_of};
ghost use Rattle.nmvs_connections.specs.Peers.{IsConnection, IsLater, Rests, kept_bytes};
ghost use Rattle.nmvs_connections.specs.Replies.{Replies};
ghost use Rattle.nmvs_connections.specs.Turns.{ConnectionSteps, Kept, LinesStep, TellsOwn, WaitsForRelease};

use crate::buffered_session::BufferedSession;
use crate::line_stream::LineStream;
use crate::next::Next;
use crate::proxy_header::{ProxyHeader, read_proxy_header};
use crate::scratch::Scratch;
use crate::socket::{Moved, Socket};
use crate::worker_pool::{Accepted, WorkerPool};
use memchr::{memchr, memmem, memrchr};
use mio::{Registry, Token};
use nmvs_identifier::Name;
use nmvs_messages::{
    Desk, End, LineList, NO_LIMITS, NameOf, Peer, READ_SIZE, Released, WithheldAnswers,
};
use std::alloc::{AllocError, Global};
use std::hash::RandomState;
use std::io;
use std::marker::Model;
use std::sync::Wait;

/// The last reply to a connection that asked nothing for too long.
const IDLE: &[u8] = b"FAULT IDLE\n";

/// How far a connection has come.
#[derive(Clone, Copy)]
pub(crate) enum Stage {
    /// Its header is read, if there is one, and then its lines are answered.
    Serving,
    /// No more lines are answered, and its replies are sent to the end.
    Ending,
    /// The write side is shut down, and the peer's bytes are still read. If a connection is closed with unread bytes, the
    /// system discards the replies that the peer has not received yet.
    Lingering,
}

/// The session of the peer of a connection: its lines are read from the stream, and its replies are written there. With
/// a gateway the stream begins with a header, which names the peer. No line is taken before the peer is known.
#[derive(Drop)]
pub(crate) struct PeerSession<L: LineList> {
    stream: LineStream,
    session: BufferedSession<L>,
    /// Whether the header names a user or an authorisation, if the stream begins with a header.
    proxy: Option<NameOf>,
    /// The keys for the fields of requests, if the lines are carried over HTTP.
    http: Option<RandomState>,
    /// The peer, once it is known.
    peer: Option<Peer>,
    /// Bytes that were read and not taken: first those of a header, later those that wait until earlier replies are sent.
    unread: Vec<u8>,
    stage: Stage,
    /// Whether more may be there to be read at once, as after a read that filled the buffer.
    filled: bool,
    /// Whether one of its lines was served.
    served: bool,
}

impl<L: LineList> Model for PeerSession<L> {
    ghost use Rattle.nmvs_connections.specs.LineStreams.{Behind, before_of, carried, pending_of};
    ghost use Rattle.nmvs_connections.specs.Peers.{PeerState, Holds};

    ghost Value = { PeerState };

    ghost view = { λ p. record { proxy = p.proxy; peer = p.peer; stage = p.stage; stream = carried p.stream; session = p.session; unread = p.unread.items; pending = pending_of p.stream.http } };

    ghost invariant = { λ p. Holds p.proxy p.peer p.stage (carried p.stream).received (carried p.stream).sent p.session.fed p.session.sent p.unread.items
        × Behind (before_of p.stream.http) p.peer (carried p.stream).received p.session.fed p.unread.items p.stage };
}

impl<L: LineList> PeerSession<L> {
    /// The session over an accepted connection: of anyone, or of the peer that a header names.
    ///
    /// # Errors
    ///
    /// There is no memory for the codec that carries its lines over HTTP.
    pub(crate) fn new(
        alloc: Global,
        accepted: Accepted,
        proxy: Option<NameOf>,
    ) -> Result<PeerSession<L>, AllocError>
        ensures { IfOk result (λ session. session.proxy ≡ proxy) }
    {
        let Accepted { socket, http, .. } = accepted;
        let peer = anyone_where_known(proxy);
        let stream = lines_of(alloc, socket, keys_where_known(proxy, http))?;
        Ok(PeerSession {
            stream,
            session: BufferedSession::new(alloc, NO_LIMITS.lines),
            proxy,
            http,
            peer,
            unread: Vec::new(alloc),
            stage: Stage::Serving,
            filled: false,
            served: false,
        })
    }

    /// Registers the connection with a poll, under the key.
    pub(crate) fn register(&mut self, registry: &Registry, key: usize) -> io::Result<()>
        ensures { self.new ≡ self.old }
    {
        self.stream.register(registry, Token(key))
    }

    /// How far it has come.
    pub(crate) fn stage(&self) -> Stage
        ensures { result ≡ self.now.stage }
    {
        self.stage
    }

    /// Whether the header names a user or an authorisation, while it has still to come.
    pub(crate) fn awaited_header(&self) -> Option<NameOf>
        ensures { IfSome result (λ name_of. (self.now.peer ≡ None) × (self.now.proxy ≡ Some name_of)) }
    {
        match self.peer {
            Some(_) => None,
            None => self.proxy,
        }
    }

    /// How the session ended, if it has.
    pub(crate) fn end(&self) -> Option<End>
        ensures { result ≡ self.now.session.ended }
    {
        self.session.end()
    }

    /// The name of the peer's certificate, if a header named it.
    pub(crate) fn name(&self) -> Option<Name>
        ensures { result ≡ name_of self.now.peer }
    {
        match self.peer {
            Some(Peer::User(name) | Peer::Authorisation(name)) => Some(name),
            Some(Peer::Anyone) | None => None,
        }
    }

    /// Whether one of its lines was served.
    pub(crate) fn is_served(&self) -> bool {
        self.served
    }

    /// Whether a line was begun whose LF has not come, or a request that has not come whole.
    pub(crate) fn has_pending_line(&self) -> bool {
        self.session.has_pending_line() || self.stream.has_pending_request()
    }

    /// Whether answers wait to be released.
    pub(crate) fn is_waiting(&self) -> bool {
        self.session.waiting() != 0
    }

    /// Whether bytes were read that were not taken, or a request is in hand.
    pub(crate) fn has_unread(&self) -> bool {
        !self.unread.is_empty() || self.stream.has_request()
    }

    /// Whether more may be there to be taken at once.
    pub(crate) fn may_have_more(&self) -> bool {
        self.filled || !self.unread.is_empty()
    }

    /// The memory of its buffers, in bytes: of unsent replies, of the list that follows them, and of bytes that were read and not
    /// taken.
    pub(crate) fn memory(&self) -> usize
        ensures { min (kept_bytes self.now) (2 ^ 64 - 1) ≤ result }
    {
        let read = self.unread.capacity().saturating_add(self.stream.memory());
        self.session.memory().saturating_add(read)
    }

    /// Whether lines follow the replies, and are still to be fetched.
    pub(crate) fn is_listing(&self) -> bool
        ensures { result ≡ true → self.now.session.waiting ≡ 0 }
    {
        self.session.is_listing()
    }

    /// Whether all replies that were worded are sent.
    pub(crate) fn is_sent(&self) -> bool {
        self.session.unsent().is_empty() && self.stream.is_flushed()
    }

    /// Notes that its bytes are those of a header, of lines and of replies.
    pub(crate) fn note_bytes(&self)
        ensures { IsConnection self.now }
    {
        let _unread = &self.unread;
    }

    /// Sends as many of the unsent bytes as the system takes.
    pub(crate) fn send(&mut self) -> Moved
        ensures kept { Kept self.old.session self.new.session }
        ensures rests { Rests self.old self.new }
    {
        if self.stage == Stage::Lingering {
            return Moved::Over;
        }
        let moved = self.send_replies();
        if !self.stream.is_http() {
            return moved;
        }
        match moved {
            Moved::Bytes(_) => {
                self.respond();
                self.stream.flush()
            }
            Moved::Blocked | Moved::Over => moved,
        }
    }

    /// Sends as much of the replies that are unsent as the stream takes.
    #[tactic(auto, using(crate::proofs::ConnectionLemmas::writes_received))]
    fn send_replies(&mut self) -> Moved
        requires { self.old.stage ≢ stages.Lingering }
        ensures kept { Kept self.old.session self.new.session }
        ensures rests { Rests self.old self.new }
        ensures stage { self.new.stage ≡ self.old.stage }
    {
        let moved = self.stream.write(self.session.unsent());
        if let Moved::Bytes(count) = moved {
            self.session.advance(count);
        }
        moved
    }

    /// Responds to the request in hand, if all its lines are answered.
    fn respond(&mut self)
        ensures session { self.new.session ≡ self.old.session }
        ensures rests { Rests self.old self.new }
        ensures stage { self.new.stage ≡ self.old.stage }
    {
        if !is_answered(&self.session) {
            return;
        }
        let all = self.unread.as_slice().is_empty();
        if let Some(ended) = ends_in(self.stage, self.session.end(), all) {
            self.stream.respond(ended);
        }
    }

    /// Notes that nothing was sent yet.
    fn note_silent(&self)
        requires awaited { self.now.peer ≡ None }
        requires serving { self.now.stage ≡ stages.Serving }
        ensures { self.now.stream.sent ≡ [] }
    {
        let _unsent = self.session.unsent();
    }

    /// Reads more of a gateway's header, and no byte after it. A connection without a header that names the peer ends.
    #[tactic(auto, using(crate::proofs::ConnectionLemmas::named_later, crate::proofs::ConnectionLemmas::rests_later))]
    pub(crate) fn read_header(&mut self, alloc: Global, name_of: NameOf, buffer: &mut [u8]) -> Next
        requires awaited { self.old.peer ≡ None }
        requires proxy { self.old.proxy ≡ Some name_of }
        requires serving { self.old.stage ≡ stages.Serving }
        requires room { READ_SIZE ≤ length buffer.old }
        ensures session { self.new.session ≡ self.old.session }
        ensures later { IsLater self.old self.new }
    {
        let missing = match read_proxy_header(self.unread.as_slice(), name_of) {
            ProxyHeader::Begun { missing } => missing.min(READ_SIZE),
            ProxyHeader::Whole(peer) => {
                self.note_silent();
                if !self.stream.begin(alloc, self.http, false) {
                    self.stage = Stage::Ending;
                    return Next::Close;
                }
                self.peer = Some(peer);
                self.unread.clear();
                return Next::Again;
            }
            ProxyHeader::Broken => {
                self.stage = Stage::Ending;
                return Next::Again;
            }
        };
        let buffer = &mut buffer[..missing];
        let count = match self.stream.read(buffer) {
            Moved::Bytes(count) => count,
            Moved::Blocked => return Next::WaitIo,
            Moved::Over => return Next::Close,
        };
        match self.unread.extend_from_slice(&buffer[..count]) {
            Ok(()) => Next::Again,
            Err(_) => {
                self.stage = Stage::Ending;
                Next::Close
            }
        }
    }

    /// Takes the lines of the unread bytes, or of one read if there are none. Without `reports` it stops before a line that may
    /// ask for a report.
    pub(crate) fn take<R: Wait, D: Desk<List = L>>(
        &mut self,
        rt: &R,
        pool: &WorkerPool<'_>,
        buffer: &mut [u8],
        reports: bool,
        withheld: &mut WithheldAnswers,
        desk: &mut D,
    ) -> Next
        requires { self.old.stage ≡ stages.Serving }
        ensures { ConnectionSteps D.takes desk.old desk.new withheld.old withheld.new result self.old self.new }
    {
        if !self.unread.as_slice().is_empty() {
            return self.take_unread(reports, withheld, desk);
        }
        let count = match self.stream.read(buffer) {
            Moved::Bytes(count) => count,
            Moved::Blocked => return self.pause(),
            Moved::Over => return Next::Close,
        };
        let chunk = &buffer[..count];
        let Some(served) = begin_session(rt, pool, self.served, chunk) else {
            self.stage = Stage::Ending;
            return Next::Close;
        };
        self.served = served;
        self.filled = count == READ_SIZE || self.stream.is_http();
        let taken = take_lines(
            &mut self.session,
            &self.peer,
            chunk,
            reports,
            withheld,
            desk,
        );
        let next = next_of(taken == count, reports, withheld);
        if is_lost(&mut self.unread, &chunk[taken..]) {
            self.stage = Stage::Ending;
            return next;
        }
        next
    }

    /// Responds to the request in hand, if all its lines are answered. The result is the next step of a connection that has no
    /// lines now.
    fn pause(&mut self) -> Next
        requires { self.old.stage ≡ stages.Serving }
        ensures session { self.new.session ≡ self.old.session }
        ensures rests { Rests self.old self.new }
    {
        self.respond();
        if self.stream.is_over() {
            self.stop_serving();
            return Next::Again;
        }
        if self.stream.may_go_on() {
            Next::Again
        } else {
            Next::WaitIo
        }
    }

    /// Takes the lines of the unread bytes.
    fn take_unread<D: Desk<List = L>>(
        &mut self,
        reports: bool,
        withheld: &mut WithheldAnswers,
        desk: &mut D,
    ) -> Next
        requires { self.old.stage ≡ stages.Serving }
        ensures { ConnectionSteps D.takes desk.old desk.new withheld.old withheld.new result self.old self.new }
    {
        if !reports && before_report(self.unread.as_slice()) == 0 {
            return Next::Again;
        }
        self.filled = true;
        let count = self.unread.len();
        let unread = self.unread.as_slice();
        let taken = take_lines(
            &mut self.session,
            &self.peer,
            unread,
            reports,
            withheld,
            desk,
        );
        self.unread.rotate_left(taken);
        self.unread.truncate(count - taken);
        next_of(taken == count, reports, withheld)
    }

    /// Turns its part of the released answers into replies. If the session has ended, no more lines are answered.
    pub(crate) fn tell(&mut self, scratch: &mut Scratch, released: &Released<'_>)
        ensures tells { TellsOwn released.now self.old.session self.new.session }
        ensures rests { Rests self.old self.new }
    {
        // If memory for the room is refused, the replies ask for their own.
        let _refused = scratch.make_room();
        self.session.exchange(&mut scratch.room);
        self.session.tell(released);
        if self.session.end().is_none() {
            return;
        }
        self.stop_serving();
    }

    /// Fetches one piece of the lines that follow the replies.
    ///
    /// # Errors
    ///
    /// There is no memory for it.
    pub(crate) fn more<D: Desk<List = L>>(
        &mut self,
        scratch: &mut Scratch,
        desk: &D,
    ) -> Result<(), AllocError>
        requires told { self.old.session.waiting ≡ 0 }
        ensures kept { Kept self.old.session self.new.session }
        ensures rests { Rests self.old self.new }
    {
        // If memory for the room is refused, the lines ask for their own.
        let _refused = scratch.make_room();
        self.session.exchange(&mut scratch.room);
        self.session.more(&mut scratch.piece, desk)
    }

    /// Exchanges the room of the replies for this one, if none are unsent.
    pub(crate) fn exchange(&mut self, room: &mut Vec<u8>)
        ensures { self.new ≡ self.old }
    {
        self.session.exchange(room);
    }

    /// Answers no more lines.
    pub(crate) fn stop_serving(&mut self)
        ensures session { self.new.session ≡ self.old.session }
        ensures rests { Rests self.old self.new }
    {
        if self.stage == Stage::Serving {
            self.stage = Stage::Ending;
        }
    }

    /// Shuts down the write side.
    #[tactic(auto, using(crate::proofs::PeerSteps::holds_quiet))]
    pub(crate) fn shutdown_write(&mut self)
        requires { self.old.stage ≡ stages.Ending }
        ensures session { self.new.session ≡ self.old.session }
        ensures rests { Rests self.old self.new }
    {
        self.stream.shutdown_write();
        self.stage = Stage::Lingering;
    }

    /// Answers no more lines: the peer asked nothing for too long. A request that has not come whole is refused as late.
    pub(crate) fn stop_idle(&mut self)
        ensures session { self.new.session ≡ self.old.session }
        ensures rests { Rests self.old self.new }
    {
        self.stream.refuse_late();
        self.stop_serving();
    }

    /// Sends the notice that the peer was idle, unless lines are carried over HTTP, and shuts down the write side.
    #[tactic(auto, using(crate::proofs::ConnectionLemmas::writes_received))]
    pub(crate) fn shutdown_idle(&mut self)
        requires { self.old.stage ≡ stages.Ending }
        ensures session { self.new.session ≡ self.old.session }
        ensures rests { Rests self.old self.new }
    {
        if self.stream.is_http() {
            self.shutdown_write();
            return;
        }
        let _moved = self.stream.write(IDLE);
        self.stream.shutdown_write();
        self.stage = Stage::Lingering;
    }

    /// Reads on, and lets the bytes go.
    pub(crate) fn linger(&mut self, buffer: &mut [u8]) -> Next
        requires { self.old.stage ≡ stages.Lingering }
        ensures session { self.new.session ≡ self.old.session }
        ensures later { IsLater self.old self.new }
    {
        match self.stream.discard(buffer) {
            Moved::Bytes(_) => Next::Again,
            Moved::Blocked => Next::WaitIo,
            Moved::Over => Next::Close,
        }
    }
}

/// The peer at the start: anyone, or none if a header will name it.
fn anyone_where_known(proxy: Option<NameOf>) -> Option<Peer>
    ensures { result ≡ (if is_some proxy then None else Some peers.Anyone) }
{
    if proxy.is_some() {
        None
    } else {
        Some(Peer::Anyone)
    }
}

/// The keys for carrying lines over HTTP from the start: none if a header comes first.
fn keys_where_known(proxy: Option<NameOf>, http: Option<RandomState>) -> Option<RandomState>
    ensures { IsSome proxy → result ≡ None }
{
    if proxy.is_some() { None } else { http }
}

/// The lines of a socket, which are carried over HTTP from the start if there are keys. No gateway stands in front of it then.
fn lines_of(
    alloc: Global,
    socket: Socket,
    keys: Option<RandomState>,
) -> Result<LineStream, AllocError>
    ensures carried { IfOk result (λ stream. carried stream ≡ record { received = []; sent = [] }) }
    ensures before { IfOk result (λ stream. IfSome (before_of stream.http) (λ before. before ≡ [])) }
    ensures none { IfOk result (λ stream. keys ≡ None → before_of stream.http ≡ None) }
{
    let mut stream = LineStream::new(socket);
    if !stream.begin(alloc, keys, true) {
        return Err(AllocError);
    }
    Ok(stream)
}

/// Whether all lines that the session was fed are answered, and the replies were taken.
fn is_answered<L: LineList>(session: &BufferedSession<L>) -> bool
    ensures { result ≡ true → Replies session.now.fed session.now.sent 0 session.now.ended }
{
    session.unsent().is_empty() && session.waiting() == 0 && !session.is_listing()
}

/// Whether the session has ended in the request in hand, if that may be responded to. It may if all read bytes were taken, or
/// QUIT ended the session.
fn ends_in(stage: Stage, end: Option<End>, all: bool) -> Option<bool>
    ensures { IfSome result (λ ended. EndsIn stage end all ended) }
{
    match (stage, end) {
        (Stage::Serving, None) if all => Some(false),
        (Stage::Serving | Stage::Ending, Some(End::Quit)) => Some(true),
        _ => None,
    }
}

/// Whether a line was served once these bytes are taken; or none, if their first line would begin one session too many.
fn begin_session<R: Wait>(
    rt: &R,
    pool: &WorkerPool<'_>,
    served: bool,
    bytes: &[u8],
) -> Option<bool> {
    if served || memchr(b'\n', bytes).is_none() {
        return Some(served);
    }
    if pool.begin_session(rt) {
        Some(true)
    } else {
        None
    }
}

/// Keeps these bytes too. The result is whether there was no memory for them.
fn is_lost(unread: &mut Vec<u8>, rest: &[u8]) -> bool
    ensures { unread.new.items ≡ (if result then unread.old.items else unread.old.items ++ rest.now) }
{
    match unread.extend_from_slice(rest) {
        Ok(()) => false,
        Err(_) => true,
    }
}

/// Takes the lines of these bytes for the peer, if it is known and the session goes on. The result is the number of bytes that
/// were taken.
fn take_lines<D: Desk>(
    session: &mut BufferedSession<D::List>,
    peer: &Option<Peer>,
    bytes: &[u8],
    reports: bool,
    withheld: &mut WithheldAnswers,
    desk: &mut D,
) -> usize
    ensures within { result ≤ length bytes.now }
    ensures fed { session.new.fed ≡ session.old.fed ++ take result bytes.now }
    ensures sent { session.new.sent ≡ session.old.sent }
    ensures known { peer.now ≡ None → result ≡ 0 }
    ensures takes { LinesStep D.takes peer.now desk.old desk.new withheld.old withheld.new session.old session.new }
{
    let Some(peer) = peer else {
        return 0;
    };
    if session.end().is_some() {
        return 0;
    }
    if session.waiting() != 0 {
        return 0;
    }
    if session.is_listing() {
        return 0;
    }
    session.take(part_for_now(bytes, reports), withheld, peer, desk)
}

/// All of these bytes, or without `reports` those before the first line that may ask for a report.
fn part_for_now(bytes: &[u8], reports: bool) -> &[u8]
    ensures { (count : ℕ) × (count ≤ length bytes.now) × (result.now ≡ take count bytes.now) }
{
    let count = if reports {
        bytes.len()
    } else {
        before_report(bytes)
    };
    &bytes[..count]
}

/// The number of bytes before the first line that may ask for a report.
fn before_report(bytes: &[u8]) -> usize
    ensures { result ≤ length bytes.now }
{
    let most = bytes.len();
    let word = memmem::find(bytes, b" REPORT ").unwrap_or(most).min(most);
    if word == most {
        return most;
    }
    match memrchr(b'\n', &bytes[..word]) {
        Some(line_feed) => line_feed.saturating_add(1).min(word),
        None => 0,
    }
}

/// Waits for the release of the answers: at once if the last one may be long, or if bytes were left without room.
fn next_of(all: bool, reports: bool, withheld: &WithheldAnswers) -> Next
    ensures { WaitsForRelease result }
{
    let has_room = all || (!reports && !withheld.is_full());
    if has_room && !withheld.ends_long() {
        Next::WaitRelease
    } else {
        Next::ReleaseNow
    }
}
