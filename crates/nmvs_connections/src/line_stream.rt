//! The stream of lines of a connection: over its socket, or over HTTP.
ghost use Rattle.std.specs.Prelude.{◌≡◌, ◌≤◌, ◌⊎◌, ◌++◌, [], None, IfSome, true, false, length};
ghost use Rattle.nmvs_http.specs.Codecs.{AnswersLines};
ghost use Rattle.nmvs_connections.specs.LineStreams.{AnswersOver, CarriesLines, IsFed, before_of, carried, carried_over, direct_of, moved_of, pending_of};
ghost use Rattle.nmvs_connections.specs.Streams.{Reads, Writes};
ghost use Rattle.nmvs_connections.specs.Traffic.{Traffic};

use crate::socket::{Moved, Socket};
use crate::stream::Stream;
use boxcar::tag::Tag;
use mio::{Registry, Token};
use nmvs_http::{CodecStage, Decoded, Fault, HttpCodec, extended};
use std::alloc::Global;
use std::hash::RandomState;
use std::io;
use std::marker::Model;

/// A codec that carries lines over HTTP, and the state of its reads.
#[derive(Drop)]
pub(crate) struct Http {
    codec: HttpCodec,
    /// The bytes that came before the first request.
    before: Tag,
    /// Whether the last read of the socket gave bytes, so that more may be there to be read at once.
    may_have_more: bool,
    /// Whether bytes are let go, and no more are fed.
    discards: bool,
}

/// The stream of the lines of a connection, and of the replies. Contracts see the bytes of its socket, and how lines are
/// carried over HTTP, if they are.
#[derive(Drop)]
pub(crate) struct LineStream {
    stream: Stream,
    /// In a box, so that a connection without HTTP takes no memory for it.
    http: Option<Box<Http>>,
}

impl Model for LineStream {
    ghost use Rattle.nmvs_connections.specs.LineStreams.{LineStreamState, IsLineStream, unboxed};

    ghost Value = { LineStreamState };

    ghost view = { λ s. record { raw = s.stream; http = unboxed s.http } };

    ghost invariant = { λ s. IsLineStream s.stream (unboxed s.http) };
}

impl LineStream {
    /// The lines of a socket from which nothing was read, and to which nothing was written.
    pub(crate) fn new(socket: Socket) -> LineStream
        ensures { result ≡ record { raw = record { received = []; sent = [] }; http = None } }
    {
        LineStream {
            stream: Stream::new(socket),
            http: None,
        }
    }

    /// Registers the stream with a poll, which reports it under the token when it may be read or written.
    pub(crate) fn register(&mut self, registry: &Registry, token: Token) -> io::Result<()>
        ensures { self.new ≡ self.old }
    {
        self.stream.register(registry, token)
    }

    /// Carries the lines over HTTP from here on, if there are keys for the fields of requests. If the socket comes directly, and
    /// through no gateway, the `Host` of requests is compared. The result is whether there was memory for it.
    pub(crate) fn begin(&mut self, alloc: Global, keys: Option<RandomState>, direct: bool) -> bool
        requires plain { self.old.http ≡ None }
        requires silent { self.old.raw.sent ≡ [] }
        ensures carried { carried self.new ≡ carried self.old }
        ensures before { IfSome (before_of self.new.http) (λ before. before ≡ (carried self.old).received) }
        ensures direct { result ≡ true → IfSome (direct_of self.new.http) (λ its. its ≡ direct) }
        ensures none { keys ≡ None → self.new ≡ self.old }
        ensures refused { result ≡ false → self.new ≡ self.old }
    {
        let Some(keys) = keys else {
            return true;
        };
        let http = Http {
            codec: HttpCodec::new(alloc, keys, direct),
            before: self.stream.received(),
            may_have_more: true,
            discards: false,
        };
        match Box::new(alloc, http) {
            Ok(http) => {
                self.http = Some(http);
                true
            }
            Err(_) => false,
        }
    }

    /// Reads bytes to the front of the buffer.
    pub(crate) fn read(&mut self, buffer: &mut [u8]) -> Moved
        ensures reads { Reads (carried self.old) (carried self.new) buffer.new result }
        ensures before { before_of self.new.http ≡ before_of self.old.http }
    {
        match &mut self.http {
            None => self.stream.read(buffer),
            Some(http) => read_over(&mut self.stream, http, buffer),
        }
    }

    /// Writes replies from the front.
    pub(crate) fn write(&mut self, replies: &[u8]) -> Moved
        ensures writes { Writes (carried self.old) (carried self.new) replies.now result }
        ensures before { before_of self.new.http ≡ before_of self.old.http }
    {
        match &mut self.http {
            None => self.stream.write(replies),
            Some(http) => write_over(http, replies),
        }
    }

    /// Responds to the request in hand, if all its lines were read, or the session has ended in it.
    pub(crate) fn respond(&mut self, ended: bool)
        requires { AnswersOver (before_of self.old.http) (carried self.old) ended }
        ensures carried { carried self.new ≡ carried self.old }
        ensures before { before_of self.new.http ≡ before_of self.old.http }
    {
        match &mut self.http {
            None => {}
            Some(http) => respond_over(http, ended),
        }
    }

    /// Refuses as late a request that has not come whole, if lines are carried over HTTP.
    pub(crate) fn refuse_late(&mut self)
        ensures carried { carried self.new ≡ carried self.old }
        ensures before { before_of self.new.http ≡ before_of self.old.http }
    {
        match &mut self.http {
            None => {}
            Some(http) => refuse_over(http),
        }
    }

    /// Sends as much as the system takes of the responses.
    pub(crate) fn flush(&mut self) -> Moved
        ensures carried { carried self.new ≡ carried self.old }
        ensures before { before_of self.new.http ≡ before_of self.old.http }
    {
        match &mut self.http {
            None => Moved::Bytes(0),
            Some(http) => flush_over(&mut self.stream, http),
        }
    }

    /// Whether all responses were sent. The bytes read from the socket are, in order, the requests that carry the lines. Those
    /// written to it are the responses that carry the replies.
    pub(crate) fn is_flushed(&self) -> bool
        ensures { CarriesLines self.now }
    {
        match &self.http {
            None => true,
            Some(http) => http.codec.unsent().is_empty(),
        }
    }

    /// Whether lines are carried over HTTP.
    pub(crate) fn is_http(&self) -> bool {
        self.http.is_some()
    }

    /// Whether a request was begun that has not come whole.
    pub(crate) fn has_pending_request(&self) -> bool {
        match &self.http {
            None => false,
            Some(http) => http.codec.has_pending_request(),
        }
    }

    /// The memory of requests and responses, in bytes.
    pub(crate) fn memory(&self) -> usize
        ensures { length (pending_of self.now.http) ≤ result }
    {
        match &self.http {
            None => 0,
            Some(http) => http.codec.memory(),
        }
    }

    /// Whether a request is in hand.
    pub(crate) fn has_request(&self) -> bool {
        match &self.http {
            None => false,
            Some(http) => http.codec.has_request(),
        }
    }

    /// Whether no more requests are read.
    pub(crate) fn is_over(&self) -> bool {
        match &self.http {
            None => false,
            Some(http) => http.codec.stage() != CodecStage::Open,
        }
    }

    /// Whether the codec may go on at once, though it gave no lines.
    pub(crate) fn may_go_on(&self) -> bool {
        match &self.http {
            None => false,
            Some(http) => http.may_have_more || !http.codec.unsent().is_empty(),
        }
    }

    /// Shuts down the write side.
    pub(crate) fn shutdown_write(&self) {
        self.stream.shutdown_write();
    }

    /// Reads on, and lets the bytes go.
    pub(crate) fn discard(&mut self, buffer: &mut [u8]) -> Moved
        ensures reads { Reads (carried self.old) (carried self.new) buffer.new result ⊎ (carried self.new ≡ carried self.old) }
        ensures before { before_of self.new.http ≡ before_of self.old.http }
    {
        match &mut self.http {
            None => self.stream.read(buffer),
            Some(http) => discard_over(&mut self.stream, http, buffer),
        }
    }
}

/// Reads bytes of lines of the requests that have come, or that one read of the socket completes.
fn read_over(stream: &mut Stream, http: &mut Http, buffer: &mut [u8]) -> Moved
    requires { IsFed stream.old http.old }
    ensures fed { IsFed stream.new http.new }
    ensures before { http.new.before ≡ http.old.before }
    ensures reads { Reads (carried_over http.old) (carried_over http.new) buffer.new result }
{
    match decode(http, buffer) {
        Some(moved) => moved,
        None => read_on(stream, http, buffer),
    }
}

/// Reads bytes of lines of the requests that have come. There is no result if more has to come first.
fn decode(http: &mut Http, buffer: &mut [u8]) -> Option<Moved>
    ensures fed { (raw : Traffic) → IsFed raw http.old → IsFed raw http.new }
    ensures before { http.new.before ≡ http.old.before }
    ensures reads { Reads (carried_over http.old) (carried_over http.new) buffer.new (moved_of result) }
{
    match http.codec.read(buffer) {
        Decoded::Lines(count) => Some(Moved::Bytes(count)),
        Decoded::Whole | Decoded::Over => Some(Moved::Blocked),
        Decoded::Nothing => None,
    }
}

/// Reads bytes of lines of the requests that one read of the socket completes.
fn read_on(stream: &mut Stream, http: &mut Http, buffer: &mut [u8]) -> Moved
    requires { IsFed stream.old http.old }
    ensures fed { IsFed stream.new http.new }
    ensures before { http.new.before ≡ http.old.before }
    ensures reads { Reads (carried_over http.old) (carried_over http.new) buffer.new result }
{
    let count = match stream.read(buffer) {
        Moved::Bytes(count) => count,
        Moved::Blocked => {
            http.may_have_more = false;
            return Moved::Blocked;
        }
        Moved::Over => return Moved::Over,
    };
    if !feed(http, &buffer[..count]) {
        return Moved::Over;
    }
    decode(http, buffer).unwrap_or(Moved::Blocked)
}

/// Feeds the codec these bytes. The result is whether there was memory for them; if not, no more are fed.
fn feed(http: &mut Http, bytes: &[u8]) -> bool
    ensures fed { (raw : Traffic) → IsFed raw http.old → IsFed (record raw { received = raw.received ++ bytes.now }) http.new }
    ensures before { http.new.before ≡ http.old.before }
    ensures carried { carried_over http.new ≡ carried_over http.old }
{
    http.may_have_more = true;
    if http.discards {
        return false;
    }
    let count = http.codec.feed(bytes);
    http.discards = count < bytes.len();
    !http.discards
}

/// Gathers replies for the response to the request in hand.
fn write_over(http: &mut Http, replies: &[u8]) -> Moved
    ensures fed { (raw : Traffic) → IsFed raw http.old → IsFed raw http.new }
    ensures before { http.new.before ≡ http.old.before }
    ensures writes { Writes (carried_over http.old) (carried_over http.new) replies.now result }
{
    if http.codec.write(replies) {
        Moved::Bytes(replies.len())
    } else {
        Moved::Over
    }
}

/// Responds to the request in hand.
fn respond_over(http: &mut Http, ended: bool)
    requires { AnswersLines http.old.codec.given http.old.codec.replies ended }
    ensures fed { (raw : Traffic) → IsFed raw http.old → IsFed raw http.new }
    ensures before { http.new.before ≡ http.old.before }
    ensures carried { carried_over http.new ≡ carried_over http.old }
{
    http.codec.respond(ended);
}

/// Refuses as late a request that has not come whole.
fn refuse_over(http: &mut Http)
    ensures fed { (raw : Traffic) → IsFed raw http.old → IsFed raw http.new }
    ensures before { http.new.before ≡ http.old.before }
    ensures carried { carried_over http.new ≡ carried_over http.old }
{
    if http.codec.has_pending_request() {
        http.codec.refuse(Fault::Timeout);
    }
}

/// Sends as many unsent bytes of the codec as the system takes.
fn flush_over(stream: &mut Stream, http: &mut Http) -> Moved
    requires { IsFed stream.old http.old }
    ensures fed { IsFed stream.new http.new }
    ensures before { http.new.before ≡ http.old.before }
    ensures carried { carried_over http.new ≡ carried_over http.old }
{
    if http.codec.unsent().is_empty() {
        return Moved::Bytes(0);
    }
    let moved = stream.write(http.codec.unsent());
    if let Moved::Bytes(count) = moved {
        http.codec.advance(count);
    }
    moved
}

/// Reads on from the socket, and lets the bytes go.
fn discard_over(stream: &mut Stream, http: &mut Http, buffer: &mut [u8]) -> Moved
    requires { IsFed stream.old http.old }
    ensures fed { IsFed stream.new http.new }
    ensures before { http.new.before ≡ http.old.before }
    ensures carried { carried_over http.new ≡ carried_over http.old }
{
    http.discards = true;
    stream.read(buffer)
}
