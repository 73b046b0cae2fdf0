//! Connections to the engine, which one thread opens for all others.
use std::net::{Net, SocketAddr, TcpStream};
use std::rt::Clock;
use std::sync::atomic::{AtomicBool, Ordering};
use std::sync::{Mutex, Wait};
use std::thread;
use std::time::Duration;

/// The longest time in which a connection is opened, in milliseconds (own).
const LONGEST_OPENING: u64 = 1_000;

/// The milliseconds between two looks whether a connection is wanted (own).
const PAUSE: u64 = 5;

/// Opens connections to the engine at an address for those who want one. The store of a log opens none itself. In this
/// toolchain a store that holds the runtime gets no proof as a part of a desk. A thread gets a proof of `run` in `main`
/// alone.
#[derive(Drop)]
pub struct Dialer {
    address: SocketAddr,
    is_wanted: AtomicBool,
    has_ended: AtomicBool,
    opened: Mutex<Option<TcpStream>>,
}

impl Dialer {
    /// A dialer that has opened none.
    pub fn new(address: SocketAddr) -> Dialer {
        Dialer {
            address,
            is_wanted: AtomicBool::new(false),
            has_ended: AtomicBool::new(false),
            opened: Mutex::new(None),
        }
    }

    /// Opens connections as they are wanted, until the dialer is ended.
    pub fn run<R: Net<Stream = TcpStream> + Clock + Wait>(&self, rt: &R) {
        for _ in rt.forever() {
            if self.has_ended.load(Ordering::SeqCst) {
                return;
            }
            if self.is_wanted.load(Ordering::SeqCst) {
                self.open(rt);
            }
            thread::sleep(rt, Duration::from_millis(PAUSE));
        }
    }

    /// Opens a connection for whoever takes it first. It stays wanted if it cannot be opened.
    fn open<R: Net<Stream = TcpStream> + Wait>(&self, rt: &R) {
        let longest = Duration::from_millis(LONGEST_OPENING);
        if let Ok(stream) = TcpStream::connect_timeout(rt, &self.address, longest) {
            self.is_wanted.store(false, Ordering::SeqCst);
            *self.opened.lock(rt) = Some(stream);
        }
    }

    /// Ends the dialer.
    pub fn end(&self) {
        self.has_ended.store(true, Ordering::SeqCst);
    }

    /// The connection that was opened, if there is one. Else one is wanted.
    pub(crate) fn take(&self) -> Option<TcpStream> {
        let stream = match self.opened.try_lock() {
            Some(mut opened) => opened.take(),
            None => None,
        };
        if stream.is_none() {
            self.is_wanted.store(true, Ordering::SeqCst);
        }
        stream
    }
}
