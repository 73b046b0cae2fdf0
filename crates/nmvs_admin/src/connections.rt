//! The connections of the socket.
use crate::connection::{Connection, Sent, write};
use mio::event::Event;
use mio::net::{UnixListener, UnixStream};
use mio::unix::SourceFd;
use mio::{Events, Interest, Poll, Token};
use nmvs_messages::PendingLine;
use slab::Slab;
use std::alloc::Global;
use std::io;
use std::io::ErrorKind;
use std::net::Net;
use std::os::fd::RawFd;
use std::rt::Clock;
use std::time::{Duration, Instant};

/// The most connections that are open at once (own).
pub(crate) const MOST_CONNECTIONS: usize = 16;

/// The most seconds for which an answer waits for its connection to take all of it (own).
const SEND_TIMEOUT: u64 = 5;

/// The milliseconds between two looks whether a connection waits too long (own).
const TICK: u64 = 500;

/// The milliseconds without an accept after a connection that could not be accepted, mostly for want of a descriptor (own).
const ACCEPT_PAUSE: u64 = 100;

/// The most reports of the system that are taken at once: of each connection, the listener and standard input.
const MOST_EVENTS: usize = MOST_CONNECTIONS + 2;

/// The descriptor of standard input.
const STANDARD_INPUT: RawFd = 0;

/// The tokens of the listener and of standard input; those of connections are their numbers.
const LISTENER: Token = Token(usize::MAX);

const STANDARD: Token = Token(usize::MAX - 1);

/// The reply to a connection that is one too many.
const BUSY: &[u8] = b"FAULT BUSY\n";

/// The connections of a socket, and the system's reports of them, of the socket and of standard input.
#[derive(Drop)]
pub(crate) struct Connections {
    poll: Poll,
    events: Events,
    listener: UnixListener,
    open: Slab<Connection>,
    /// Whether connections may wait for an accept.
    may_accept: bool,
    /// Whether the system reports when standard input may be read. It does not report a file, which may always be read.
    reports_standard: bool,
    /// Whether standard input may be read.
    is_standard_ready: bool,
}

impl Connections {
    /// The connections of a socket that is listened on: none yet.
    ///
    /// # Errors
    ///
    /// Memory or a descriptor was refused.
    pub(crate) fn open(
        rt: &impl Net,
        alloc: Global,
        listener: UnixListener,
    ) -> io::Result<Connections> {
        let mut listener = listener;
        let poll = poll_of(rt, &mut listener)?;
        let events = Events::with_capacity(alloc, MOST_EVENTS)?;
        let open = Slab::with_capacity(alloc, MOST_CONNECTIONS)?;
        let reports_standard = is_reported(&poll);
        Ok(Connections {
            poll,
            events,
            listener,
            open,
            may_accept: false,
            reports_standard,
            is_standard_ready: !reports_standard,
        })
    }

    /// Whether standard input may be read.
    pub(crate) fn is_standard_ready(&self) -> bool {
        self.is_standard_ready
    }

    /// Makes the system report again when standard input may be read, after a read of it.
    pub(crate) fn watch_standard(&mut self) {
        if !self.reports_standard {
            return;
        }
        let standard = &mut SourceFd(&STANDARD_INPUT);
        let watched = self
            .poll
            .registry()
            .reregister(standard, STANDARD, Interest::READABLE);
        self.is_standard_ready = watched.is_err();
    }

    /// Waits until the system reports something, but no longer than this. It does not wait if there is work. Then it accepts
    /// connections, reads from each once, and sends each more of its answer. It closes a connection that is broken, or does not
    /// take its answer in time.
    ///
    /// # Errors
    ///
    /// The system refuses to report.
    pub(crate) fn wait<R: Clock>(
        &mut self,
        rt: &R,
        has_work: bool,
        longest: Option<Duration>,
    ) -> io::Result<()> {
        let timeout = self.timeout(has_work, longest);
        self.poll.poll(&mut self.events, timeout)?;
        self.note_all();
        self.accept_all();
        for number in 0..self.open.capacity() {
            if let Some(connection) = self.open.get_mut(number) {
                connection.read();
                if !connection.send_on() || connection.is_late(rt, SEND_TIMEOUT) {
                    self.close(number);
                }
            }
        }
        Ok(())
    }

    /// The longest wait for the system's reports: no longer than this.
    fn timeout(&self, has_work: bool, longest: Option<Duration>) -> Option<Duration> {
        if has_work
            || self
                .open
                .iter()
                .any(|(_, connection)| connection.is_at_work())
        {
            Some(Duration::ZERO)
        } else if self.may_accept {
            Some(Duration::from_millis(ACCEPT_PAUSE))
        } else if self
            .open
            .iter()
            .any(|(_, connection)| connection.is_behind())
        {
            let tick = Duration::from_millis(TICK);
            Some(longest.unwrap_or(tick).min(tick))
        } else {
            longest
        }
    }

    /// Notes the reports of the system.
    fn note_all(&mut self) {
        for event in &self.events {
            match event.token() {
                LISTENER => self.may_accept = true,
                STANDARD => self.is_standard_ready = true,
                Token(number) => {
                    if let Some(connection) = self.open.get_mut(number) {
                        connection.is_ready = true;
                    }
                }
            }
        }
    }

    /// Accepts the connections that wait. One too many gets a fault, and is closed.
    fn accept_all(&mut self) {
        if !self.may_accept {
            return;
        }
        for _ in 0..u64::MAX {
            match self.listener.accept() {
                Ok((stream, _peer)) => self.admit(stream),
                Err(error) => {
                    self.may_accept = error.kind() != ErrorKind::WouldBlock;
                    return;
                }
            }
        }
    }

    fn admit(&mut self, mut stream: UnixStream) {
        if self.open.len() >= MOST_CONNECTIONS {
            let _unsent = write(&mut stream, BUSY);
            return;
        }
        let token = Token(self.open.vacant_key());
        let both = Interest::READABLE | Interest::WRITABLE;
        let registry = self.poll.registry();
        if registry.register(&mut stream, token, both).is_ok() {
            let _room = self.open.insert(Connection::new(stream));
        }
    }

    /// The next line of the connection of this number, if there is one and the connection took the earlier answer.
    pub(crate) fn next_line(&mut self, number: usize) -> Option<PendingLine> {
        let connection = self.open.get_mut(number)?;
        if connection.is_behind() {
            return None;
        }
        connection.incoming.next_line()
    }

    /// Takes a connection that is over, after all its bytes were looked through: its number, and the line that it began and did
    /// not end.
    pub(crate) fn next_over(&mut self) -> Option<(usize, PendingLine)> {
        for number in 0..self.open.capacity() {
            if let Some(connection) = self.open.get_mut(number) {
                if connection.is_over && !connection.is_behind() {
                    return Some((number, connection.incoming.take_begun()));
                }
            }
        }
        None
    }

    /// Closes the connection of this number.
    pub(crate) fn close(&mut self, number: usize) {
        let _closed = self.open.try_remove(number);
    }

    /// Sends a text to the connection of this number, which takes it as it can. It returns whether the connection is whole, and
    /// closes a broken one.
    pub(crate) fn send<R: Clock>(&mut self, rt: &R, number: usize, text: Vec<u8>) -> bool {
        let is_whole = match (self.open.get_mut(number), Instant::now(rt)) {
            (Some(connection), Ok(now)) => connection.send(text, now),
            _ => false,
        };
        if !is_whole {
            self.close(number);
        }
        is_whole
    }

    /// Sends a short text to the connection of this number, and closes it if it does not take all of it at once.
    pub(crate) fn send_now(&mut self, number: usize, text: &[u8]) -> bool {
        let is_taken = match self.open.get_mut(number) {
            Some(connection) => match write(&mut connection.stream, text) {
                Sent::Bytes(count) => count == text.len(),
                Sent::Blocked | Sent::Broken => false,
            },
            None => false,
        };
        if !is_taken {
            self.close(number);
        }
        is_taken
    }
}

/// The poll that reports when connections wait for an accept.
fn poll_of(rt: &impl Net, listener: &mut UnixListener) -> io::Result<Poll> {
    let poll = Poll::new(rt)?;
    poll.registry()
        .register(listener, LISTENER, Interest::READABLE)?;
    Ok(poll)
}

/// Makes the system report when standard input may be read. It returns whether it will.
fn is_reported(poll: &Poll) -> bool {
    let standard = &mut SourceFd(&STANDARD_INPUT);
    poll.registry()
        .register(standard, STANDARD, Interest::READABLE)
        .is_ok()
}
