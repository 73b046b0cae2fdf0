//! Sockets and listeners: over TCP, or Unix sockets.
ghost use Rattle.std.specs.Prelude.{◌≤◌, ℕ, length, IfOk};
ghost use Rattle.nmvs_connections.specs.Streams.{IsWithin};

use crate::keepalive::keep_alive;
use mio::net::{TcpListener, TcpStream, UnixListener, UnixStream};
use mio::{Interest, Registry, Token};
use std::io;
use std::io::{ErrorKind, Read, Write};
use std::net::{IpAddr, Net, Shutdown, SocketAddr};
use std::os::fd::{AsRawFd, RawFd};
use std::path::AsPath;
use std::rt::Files;

/// The result of a read or a write of a socket.
#[derive(Clone, Copy)]
pub(crate) enum Moved {
    /// This number of bytes was moved.
    Bytes(usize),
    /// None can be moved now.
    Blocked,
    /// None will be moved any more: the peer ended, or the connection broke.
    Over,
}

/// The socket of a connection, whose reads and writes never wait.
#[derive(Drop)]
pub(crate) enum Socket {
    Tcp(TcpStream),
    Unix(UnixStream),
}

impl Socket {
    /// Registers the connection with a poll, which reports it under the token when it may be read or written.
    pub(crate) fn register(&mut self, registry: &Registry, token: Token) -> io::Result<()> {
        let both = Interest::READABLE | Interest::WRITABLE;
        match self {
            Socket::Tcp(stream) => registry.register(stream, token, both),
            Socket::Unix(stream) => registry.register(stream, token, both),
        }
    }

    pub(crate) fn read(&mut self, buffer: &mut [u8]) -> Moved
        ensures { IsWithin result (length buffer.old) }
    {
        let read = match self {
            Socket::Tcp(stream) => stream.read(buffer),
            Socket::Unix(stream) => stream.read(buffer),
        };
        outcome_of(read)
    }

    pub(crate) fn write(&mut self, bytes: &[u8]) -> Moved
        ensures { IsWithin result (length bytes.now) }
    {
        let written = match self {
            Socket::Tcp(stream) => stream.write(bytes),
            Socket::Unix(stream) => stream.write(bytes),
        };
        outcome_of(written)
    }

    /// Shuts down the write side. A broken connection stays broken.
    pub(crate) fn shutdown_write(&self) {
        let _broken = match self {
            Socket::Tcp(stream) => stream.shutdown(Shutdown::Write),
            Socket::Unix(stream) => stream.shutdown(Shutdown::Write),
        };
    }
}

/// The result by the system's outcome of a read or a write: 0 bytes mean the end.
fn outcome_of(outcome: io::Result<usize>) -> Moved
    ensures { (most : ℕ) → IfOk outcome (λ count. count ≤ most) → IsWithin result most }
{
    match outcome {
        Ok(0) => Moved::Over,
        Ok(count) => Moved::Bytes(count),
        Err(error) if error.kind() == ErrorKind::WouldBlock => Moved::Blocked,
        Err(_) => Moved::Over,
    }
}

/// A socket that accepts connections. Its queue of connections is as long as the system allows.
#[derive(Drop)]
pub enum Listener {
    Tcp(TcpListener),
    Unix(UnixListener),
}

impl Listener {
    /// Listens on an address and a port; port 0 is any that is free.
    ///
    /// # Errors
    ///
    /// The system refuses it.
    pub fn on_port(rt: &impl Net, address: SocketAddr) -> io::Result<Listener> {
        Ok(Listener::Tcp(TcpListener::bind(rt, address)?))
    }

    /// Listens on a Unix socket, which is made at the path.
    ///
    /// # Errors
    ///
    /// The system refuses it, as it does if there is a file at the path.
    pub fn on_path<R: Files + Net, P: AsPath>(rt: &R, path: P) -> io::Result<Listener> {
        Ok(Listener::Unix(UnixListener::bind(rt, path)?))
    }

    /// The port, if there is one.
    pub fn port(&self) -> Option<u16> {
        match self {
            Listener::Tcp(listener) => listener.local_addr().ok().map(|address| address.port()),
            Listener::Unix(_) => None,
        }
    }

    /// The next connection, and over TCP the address that it comes from; or `WouldBlock` if none waits.
    pub(crate) fn accept(&self) -> io::Result<(Socket, Option<IpAddr>)> {
        match self {
            Listener::Tcp(listener) => {
                let (stream, peer) = listener.accept()?;
                let _slow = stream.set_nodelay(true);
                keep_alive(&stream);
                Ok((Socket::Tcp(stream), Some(peer.ip())))
            }
            Listener::Unix(listener) => {
                let (stream, _peer) = listener.accept()?;
                Ok((Socket::Unix(stream), None))
            }
        }
    }

    /// The descriptor, by which a poll reports that connections wait.
    pub(crate) fn descriptor(&self) -> RawFd {
        match self {
            Listener::Tcp(listener) => listener.as_raw_fd(),
            Listener::Unix(listener) => listener.as_raw_fd(),
        }
    }
}
