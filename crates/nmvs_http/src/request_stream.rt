//! The requests of a stream of bytes.
ghost use Rattle.std.specs.Prelude.{◌≡◌, ◌≢◌, ◌≤◌, ◌++◌, ℕ, List, [], length, take, false, Some, IfOk};
ghost use Rattle.http_server.specs.declared.state.State.TheVariants as states;
ghost use Rattle.http_server.specs.Connection.{config_of};
ghost use Rattle.nmvs_http.specs.StreamState.{StreamState, request_limits, stream_state};
ghost use Rattle.nmvs_http.specs.Streams.{IsNext, IsNextOf, ReadsAsked, ReadsRequests};
ghost use Rattle.nmvs_http.specs.Streams as specs;

use crate::asked::{Asks, is_head};
use crate::fault::Fault;
use crate::reading::read_request;
use bytes::Bytes;
use http::{Request, StatusCode};
use http_server::{Config, Connection, Reason, Refusal, Response, Service, State};
use http1::ReadError;
use std::alloc::{AllocError, Global};
use std::hash::RandomState;
use std::marker::Model;

/// The most bytes of a request's body (own).
const LONGEST_BODY: usize = 128 * 1024;

/// The length in bytes of an invitation to send a body. The connection's own response to a request is longer, so it reads no
/// second request before that is discarded.
const INVITATION: usize = 25;

/// The most bytes of one read.
const READ_SIZE: usize = 4096;

/// A request that was read.
#[derive(Drop)]
pub(crate) struct Asked {
    pub(crate) asks: Asks,
    /// Whether the head of the response is wanted alone.
    pub(crate) head_alone: bool,
    /// The bytes of lines that it carries.
    pub(crate) lines: Bytes,
}

/// The next item of a stream.
#[derive(Drop)]
pub(crate) enum Next {
    /// No whole request.
    Nothing,
    /// A peer that waits to be invited to send a body.
    Invitation,
    /// A request, and whether the connection stays open after its response.
    Request(Asked, bool),
    /// A refusal for this fault.
    Refused(Fault),
    /// There was no memory for a request.
    Lost,
}

/// A stream of bytes that begins with requests.
#[derive(Drop)]
pub(crate) struct RequestStream {
    alloc: Global,
    /// Whether the stream comes directly, and through no gateway.
    direct: bool,
    connection: Connection,
}

impl Model for RequestStream {
    ghost use Rattle.std.specs.Prelude.{◌≡◌};
    ghost use Rattle.http_server.specs.Connection.{config_of};
    ghost use Rattle.nmvs_http.specs.StreamState.{StreamState, request_limits, stream_state};

    ghost Value = { StreamState };

    ghost view = { λ s. stream_state s.direct s.connection };

    ghost invariant = { λ s. config_of s.connection ≡ request_limits };
}

impl RequestStream {
    /// An empty stream. The peer chooses the names of fields, so their maps take secret keys.
    pub(crate) fn new(alloc: Global, keys: RandomState, direct: bool) -> RequestStream
        ensures { result ≡ record { direct = direct; fed = []; requests = []; state = State.Open; held = [] } }
    {
        RequestStream {
            alloc,
            direct,
            connection: Connection::new(alloc, keys, config()),
        }
    }

    /// Feeds these bytes. Returns the number that it took: all, if there is memory for them.
    pub(crate) fn feed(&mut self, more: &[u8]) -> usize
        ensures within { result ≤ length more.now }
        ensures fed { self.new ≡ record self.old { fed = self.old.fed ++ take result more.now } }
    {
        let mut rest = more;
        while !rest.is_empty() {
            match self.connection.read_from(&mut rest) {
                Ok(0) | Err(_) => return more.len() - rest.len(),
                Ok(_) => {}
            }
        }
        more.len()
    }

    /// States that the stream is the requests read from it and a rest, unless memory ran out.
    pub(crate) fn note_read(&self)
        ensures { self.now.state ≢ states.Aborted → ∥ ((rest : List ℕ) × ReadsRequests request_limits self.now.fed self.now.requests rest) ∥₁ }
    {
        let _state = self.connection.state();
    }

    /// Reads the next item.
    pub(crate) fn next(&mut self) -> Next
        ensures direct { self.new.direct ≡ self.old.direct }
        ensures fed { self.new.fed ≡ self.old.fed }
        ensures next { IsNext self.old self.new result }
    {
        let mut reader = Reader {
            alloc: self.alloc,
            direct: self.direct,
            asked: None,
        };
        self.connection.advance(&mut reader);
        let state = self.connection.state();
        let waits = self.connection.wants_write();
        discard_output(&mut self.connection);
        next_of(reader.asked, state, waits)
    }
}

/// The next item, by the request that was read and the state of the connection.
fn next_of(asked: Option<Asked>, state: State, waits: bool) -> Next
    ensures { (new : StreamState) → new.state ≡ state → IsNextOf asked new result }
{
    match (asked, state) {
        (_, State::Aborted) => Next::Lost,
        (Some(asked), _) => Next::Request(asked, state == State::Open),
        (None, State::Open) if waits => Next::Invitation,
        (None, State::Open) => Next::Nothing,
        (None, State::Closing(Reason::Refused(refusal))) => Next::Refused(fault_of(refusal)),
        (None, _) => Next::Lost,
    }
}

/// Takes one request of a connection. Nobody gets the connection's own response.
#[derive(Drop)]
pub(crate) struct Reader {
    alloc: Global,
    direct: bool,
    asked: Option<Asked>,
}

impl Service for Reader {
    ghost use Rattle.std.specs.Prelude.{◌≡◌, None};
    ghost use Rattle.nmvs_http.specs.Streams.{ReadsAsked};

    ghost answers = { λ old request response new. (old.asked ≡ None) × ReadsAsked old.direct request new.asked };

    fn call(
        &mut self,
        request: &Request<Bytes>,
        response: &mut Response,
    ) -> Result<(), AllocError> {
        if self.asked.is_some() {
            return Err(AllocError);
        }
        let asked = read_asked(self.alloc, self.direct, request)?;
        response.status = StatusCode::NO_CONTENT;
        self.asked = Some(asked);
        Ok(())
    }
}

/// Reads the kind and lines of a request, and whether it wants the head of the response alone.
fn read_asked(alloc: Global, direct: bool, request: &Request<Bytes>) -> Result<Asked, AllocError>
    ensures { IfOk result (λ asked. ReadsAsked direct request.now (Some asked)) }
{
    let reading = read_request(alloc, direct, request)?;
    Ok(Asked {
        asks: reading.asks,
        head_alone: is_head(request),
        lines: reading.lines,
    })
}

fn config() -> Config
    ensures { result ≡ request_limits }
{
    let mut config = Config::default();
    config.max_body_len = LONGEST_BODY;
    config.max_pending = INVITATION;
    config.read_size = READ_SIZE;
    config
}

/// Discards the bytes that a connection would send.
fn discard_output(connection: &mut Connection)
    ensures stream { stream_state false connection.new ≡ stream_state false connection.old }
    ensures config { config_of connection.new ≡ config_of connection.old }
{
    for _ in 0..u64::MAX {
        let count = connection.output().len();
        if count == 0 {
            return;
        }
        connection.sent(count);
    }
}

/// The fault of a request that a connection refuses.
#[tactic(auto, unfolding(crate::specs::Streams::fault_of))]
fn fault_of(refusal: Refusal) -> Fault
    ensures { result ≡ specs.fault_of refusal }
{
    match refusal {
        Refusal::Unreadable(ReadError::UriTooLong) => Fault::Target,
        Refusal::Unreadable(error) if error.status() == 431 => Fault::Head,
        Refusal::InvalidPart(http::Error::HeaderName | http::Error::MaxSizeReached) => Fault::Head,
        Refusal::InvalidPart(http::Error::Uri(error)) if error.is_too_long() => Fault::Target,
        Refusal::BodyTooLarge => Fault::Body,
        Refusal::UnknownCoding => Fault::Coding,
        _ => Fault::Request,
    }
}
