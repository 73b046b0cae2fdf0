//! The thread that accepts connections.
use crate::socket::{Listener, Moved, Socket};
use crate::worker_pool::{Accepted, Poller, WorkerPool};
use log::{Log, debug};
use mio::unix::SourceFd;
use mio::{Interest, Poll, Token};
use nmvs_http::{Fault, WriteBuffer, write_refusal};
use nmvs_stream::Failed;
use std::alloc::{AllocError, Global};
use std::hash::RandomState;
use std::io;
use std::io::ErrorKind;
use std::sync::Wait;
use std::time::Duration;

/// The tokens of the listeners.
const LINES: Token = Token(0);

const HTTP: Token = Token(1);

/// The most milliseconds from an accept that failed, as a rule for want of a descriptor, to the next (own).
const PAUSE: u64 = 100;

/// The reply to a connection above the limit.
const BUSY: &[u8] = b"FAULT BUSY\n";

/// A listener for connections whose lines are carried over HTTP.
#[derive(Drop)]
pub struct HttpListener {
    pub listener: Listener,
    /// The keys for the fields of requests, whose names the peer chooses.
    pub keys: RandomState,
}

/// A listener, and how its connections carry lines.
#[derive(Clone, Copy)]
struct Entrance<'l> {
    listener: &'l Listener,
    /// The keys for the fields of requests, if lines are carried over HTTP.
    http: Option<RandomState>,
    /// The reply to a connection above the limit.
    busy: &'l [u8],
}

/// Accepts connections and hands them to the workers in turn, until the pool closes. It turns away those above the limit.
///
/// # Errors
///
/// The system refused to report a listener, or to wait.
pub fn accept_loop<R: Wait + Log>(
    rt: &R,
    alloc: Global,
    pool: &WorkerPool<'_>,
    listener: &Listener,
    http: Option<&HttpListener>,
    poller: Poller,
) -> io::Result<()> {
    let busy = busy_response(alloc)?;
    let lines = Entrance {
        listener,
        http: None,
        busy: BUSY,
    };
    match http {
        None => accept_by(rt, pool, lines, None, poller),
        Some(HttpListener { listener, keys }) => {
            let http = Entrance {
                listener,
                http: Some(*keys),
                busy: busy.as_slice(),
            };
            accept_by(rt, pool, lines, Some(http), poller)
        }
    }
}

/// The response over HTTP to a connection above the limit.
fn busy_response(alloc: Global) -> Result<Vec<u8>, AllocError> {
    let mut text = WriteBuffer::new(Vec::new(alloc));
    match write_refusal(&mut text, Fault::Busy) {
        Ok(()) => Ok(text.bytes),
        Err(Failed) => Err(AllocError),
    }
}

/// Registers an entrance with a poll, under the token.
fn register(poll: &Poll, entrance: Entrance<'_>, token: Token) -> io::Result<()> {
    let descriptor = entrance.listener.descriptor();
    poll.registry()
        .register(&mut SourceFd(&descriptor), token, Interest::READABLE)
}

/// Accepts connections by one entrance or two, until the pool closes.
fn accept_by<R: Wait + Log>(
    rt: &R,
    pool: &WorkerPool<'_>,
    lines: Entrance<'_>,
    http: Option<Entrance<'_>>,
    poller: Poller,
) -> io::Result<()> {
    let Poller {
        mut poll,
        mut events,
    } = poller;
    register(&poll, lines, LINES)?;
    if let Some(http) = http {
        register(&poll, http, HTTP)?;
    }
    let mut next = 0usize;
    let mut pause = None;
    for _ in 0..u64::MAX {
        poll.poll(&mut events, pause)?;
        if pool.is_closing(rt) {
            return Ok(());
        }
        pause = accept_all(rt, pool, lines, &mut next);
        if let Some(http) = http {
            pause = accept_all(rt, pool, http, &mut next).or(pause);
        }
    }
    Ok(())
}

/// Accepts the connections that wait. The result is the longest wait until the next accept, if one failed.
fn accept_all<R: Wait + Log>(
    rt: &R,
    pool: &WorkerPool<'_>,
    entrance: Entrance<'_>,
    next: &mut usize,
) -> Option<Duration> {
    let Entrance {
        listener,
        http,
        busy,
    } = entrance;
    for _ in 0..u64::MAX {
        match listener.accept() {
            Ok((socket, address)) => {
                let (number, worker) = (*next, pool.worker_of(*next));
                if pool.enter(rt, worker) {
                    debug!(rt; connection = number, worker; "connection begins");
                    let accepted = Accepted {
                        number,
                        address,
                        socket,
                        http,
                    };
                    pool.assign(rt, worker, accepted);
                    *next = number.wrapping_add(1);
                } else {
                    turn_away(socket, busy);
                }
            }
            Err(error) if error.kind() == ErrorKind::WouldBlock => return None,
            Err(_) => return Some(Duration::from_millis(PAUSE)),
        }
    }
    None
}

/// Sends this reply to a connection above the limit, and closes it.
fn turn_away(mut socket: Socket, busy: &[u8]) {
    match socket.write(busy) {
        Moved::Bytes(_) => socket.shutdown_write(),
        Moved::Blocked | Moved::Over => {}
    }
}
