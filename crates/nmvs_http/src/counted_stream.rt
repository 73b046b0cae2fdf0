//! A stream of requests, and the number of bytes after the last of them.
ghost use Rattle.std.specs.Prelude.{◌≡◌, ◌≢◌, ◌≤◌, ◌++◌, ℕ, List, [], length, take, if◌then◌else◌};
ghost use Rattle.http_server.specs.declared.state.State.TheVariants as states;
ghost use Rattle.nmvs_http.specs.StreamState.{request_limits};
ghost use Rattle.nmvs_http.specs.Streams.{IsNext, ReadsRequests};

use crate::request_stream::{Next, RequestStream};
use std::alloc::Global;
use std::hash::RandomState;
use std::marker::Model;

/// A stream of requests that counts the bytes after the last of them. It holds its last byte back until no request comes without
/// it. So it knows of each request whether bytes follow it that came in the same read.
#[derive(Drop)]
pub(crate) struct CountedStream {
    requests: RequestStream,
    /// The last byte, while it is held back.
    held: Option<u8>,
    /// The number of bytes of the last feed.
    recent: usize,
    /// The number of bytes fed after the last request, with all of the feed in which it ended if some of that follow it.
    unread: usize,
}

impl Model for CountedStream {
    ghost use Rattle.std.specs.Prelude.{◌≤◌, length};
    ghost use Rattle.nmvs_http.specs.StreamState.{StreamState, bytes_of, with_held};

    ghost Value = { StreamState };

    ghost view = { λ s. with_held s.requests s.held };

    ghost invariant = { λ s. (length (bytes_of s.held) ≤ s.recent) × (length (bytes_of s.held) ≤ s.unread) };
}

impl CountedStream {
    /// An empty stream. The peer chooses the names of fields, so their maps take secret keys.
    pub(crate) fn new(alloc: Global, keys: RandomState, direct: bool) -> CountedStream
        ensures { result ≡ record { direct = direct; fed = []; requests = []; state = states.Open; held = [] } }
    {
        CountedStream {
            requests: RequestStream::new(alloc, keys, direct),
            held: None,
            recent: 0,
            unread: 0,
        }
    }

    /// The number of bytes that were fed and that no request was read from: at least those held back.
    pub(crate) fn unread(&self) -> usize
        ensures { length self.now.held ≤ result }
    {
        self.unread
    }

    /// Feeds these bytes. Returns the number that it took: all, if there is memory for them.
    pub(crate) fn feed(&mut self, more: &[u8]) -> usize
        ensures within { result ≤ length more.now }
        ensures fed { self.new ≡ record self.old { fed = self.old.fed ++ take result more.now; held = self.new.held } }
    {
        if more.is_empty() || !self.give_held() {
            return 0;
        }
        let most = more.len() - 1;
        let count = self.requests.feed(&more[..most]);
        self.recent = more.len();
        self.unread = self.unread.saturating_add(more.len());
        if count < most {
            return count;
        }
        self.held = Some(more[most]);
        more.len()
    }

    /// Holds no byte back. Returns whether there was memory for it.
    fn give_held(&mut self) -> bool
        ensures { self.new ≡ (if result then (record self.old { held = [] }) else self.old) }
    {
        let Some(byte) = self.held else {
            return true;
        };
        if self.requests.feed(&[byte]) == 0 {
            return false;
        }
        self.held = None;
        true
    }

    /// States that the stream is the requests read from it and a rest, unless memory ran out.
    pub(crate) fn note_read(&self)
        ensures { self.now.state ≢ states.Aborted → ∥ ((rest : List ℕ) × ReadsRequests request_limits self.now.fed self.now.requests rest) ∥₁ }
    {
        self.requests.note_read();
    }

    /// Reads the next item.
    pub(crate) fn next(&mut self) -> Next
        ensures direct { self.new.direct ≡ self.old.direct }
        ensures fed { self.new.fed ≡ self.old.fed }
        ensures next { IsNext self.old self.new result }
    {
        match self.next_given() {
            Next::Nothing => {}
            next => return next,
        }
        if !self.give_held() {
            return Next::Lost;
        }
        self.next_given()
    }

    /// Reads the next item of the bytes that are not held back.
    fn next_given(&mut self) -> Next
        ensures direct { self.new.direct ≡ self.old.direct }
        ensures fed { self.new.fed ≡ self.old.fed }
        ensures next { IsNext self.old self.new result }
    {
        let next = self.requests.next();
        if let Next::Request(..) = next {
            self.unread = if self.held.is_some() { self.recent } else { 0 };
        }
        next
    }
}
