//! An administrator's connection.
ghost use Rattle.std.specs.Prelude.{length};
ghost use Rattle.nmvs_admin.specs.Sent.{IsWithin};

use crate::incoming::Incoming;
use mio::net::UnixStream;
use nmvs_messages::READ_SIZE;
use std::io::{ErrorKind, Read, Write};
use std::rt::Clock;
use std::time::Instant;

/// The result of a write.
#[derive(Clone, Copy)]
pub(crate) enum Sent {
    /// The connection took this number of bytes.
    Bytes(usize),
    /// It takes none now.
    Blocked,
    /// It will take none any more.
    Broken,
}

/// An answer that a connection has not taken to its end.
#[derive(Drop)]
struct Unsent {
    text: Vec<u8>,
    taken: usize,
    begun: Instant,
}

/// An open connection, whose reads and writes never wait.
#[derive(Drop)]
pub(crate) struct Connection {
    pub(crate) stream: UnixStream,
    pub(crate) incoming: Incoming,
    unsent: Option<Unsent>,
    /// Whether there may be bytes to read.
    pub(crate) is_ready: bool,
    /// Whether no more bytes come.
    pub(crate) is_over: bool,
}

impl Connection {
    pub(crate) fn new(stream: UnixStream) -> Connection {
        Connection {
            stream,
            incoming: Incoming::new(),
            unsent: None,
            is_ready: true,
            is_over: false,
        }
    }

    /// Whether it has not taken its last answer to its end. Then none of its lines is looked at.
    pub(crate) fn is_behind(&self) -> bool {
        self.unsent.is_some()
    }

    /// Whether its answer has waited for at least this number of seconds.
    pub(crate) fn is_late<R: Clock>(&self, rt: &R, limit: u64) -> bool {
        match &self.unsent {
            Some(unsent) => unsent
                .begun
                .elapsed(rt)
                .is_ok_and(|waited| waited.as_secs() >= limit),
            None => false,
        }
    }

    /// Whether there are bytes to read or to look at.
    pub(crate) fn is_at_work(&self) -> bool {
        !self.is_behind() && (self.is_ready || self.is_over || !self.incoming.is_looked_through())
    }

    /// Reads once, if there may be bytes, and all earlier ones are looked through.
    pub(crate) fn read(&mut self) {
        if self.is_behind() || !self.is_ready || !self.incoming.is_looked_through() {
            return;
        }
        let mut buffer = [0; READ_SIZE];
        match self.stream.read(&mut buffer) {
            Ok(count) if count > 0 => self.incoming.extend(&buffer[..count]),
            Err(error) if error.kind() == ErrorKind::WouldBlock => self.is_ready = false,
            _ => {
                self.is_ready = false;
                self.is_over = true;
            }
        }
    }

    /// Sends an answer, as much of it as the connection takes now. The rest follows as it takes more. It returns whether the
    /// connection is whole.
    pub(crate) fn send(&mut self, text: Vec<u8>, begun: Instant) -> bool {
        self.unsent = Some(Unsent {
            text,
            taken: 0,
            begun,
        });
        self.send_on()
    }

    /// Goes on with the answer that the connection has not taken to its end. It returns whether the connection is whole.
    pub(crate) fn send_on(&mut self) -> bool {
        let Some(unsent) = &mut self.unsent else {
            return true;
        };
        for _ in 0..u64::MAX {
            let rest = unsent.text.get(unsent.taken..).unwrap_or(&[]);
            if rest.is_empty() {
                break;
            }
            match write(&mut self.stream, rest) {
                Sent::Bytes(count) => unsent.taken = unsent.taken.saturating_add(count),
                Sent::Blocked => return true,
                Sent::Broken => return false,
            }
        }
        self.unsent = None;
        true
    }
}

/// Writes some of these bytes.
pub(crate) fn write(stream: &mut UnixStream, bytes: &[u8]) -> Sent
    ensures { IsWithin result (length bytes.now) }
{
    match stream.write(bytes) {
        Ok(count) if count > 0 => Sent::Bytes(count),
        Err(error) if error.kind() == ErrorKind::WouldBlock => Sent::Blocked,
        _ => Sent::Broken,
    }
}
