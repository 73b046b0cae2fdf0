//! The bytes of a connection, as they come and go.
ghost use Rattle.std.specs.Prelude.{◌≡◌, []};
ghost use Rattle.nmvs_connections.specs.Streams.{Reads, Writes};

use crate::socket::{Moved, Socket};
use boxcar::tag::Tag;
use mio::{Registry, Token};
use nmvs_http::extended;
use std::io;
use std::marker::Model;

/// A socket, and the bytes that were read from it and written to it. Contracts see these alone; what a socket really gave is
/// beyond any contract.
#[derive(Drop)]
pub(crate) struct Stream {
    socket: Socket,
    received: Tag,
    sent: Tag,
}

impl Model for Stream {
    ghost use Rattle.nmvs_connections.specs.Traffic.{Traffic};

    ghost Value = { Traffic };

    ghost view = { λ s. record { received = s.received.numbers; sent = s.sent.numbers } };
}

impl Stream {
    /// A socket from which nothing was read, and to which nothing was written.
    pub(crate) fn new(socket: Socket) -> Stream
        ensures { result ≡ record { received = []; sent = [] } }
    {
        Stream {
            socket,
            received: Tag::empty(),
            sent: Tag::empty(),
        }
    }

    /// Registers the stream with a poll, which reports it under the token when it may be read or written.
    pub(crate) fn register(&mut self, registry: &Registry, token: Token) -> io::Result<()>
        ensures { self.new ≡ self.old }
    {
        self.socket.register(registry, token)
    }

    /// Reads bytes to the front of the buffer.
    pub(crate) fn read(&mut self, buffer: &mut [u8]) -> Moved
        ensures { Reads self.old self.new buffer.new result }
    {
        let moved = self.socket.read(buffer);
        if let Moved::Bytes(count) = moved {
            self.received = extended(&self.received, &buffer[..count]);
        }
        moved
    }

    /// Writes bytes from the front.
    pub(crate) fn write(&mut self, bytes: &[u8]) -> Moved
        ensures { Writes self.old self.new bytes.now result }
    {
        let moved = self.socket.write(bytes);
        if let Moved::Bytes(count) = moved {
            self.sent = extended(&self.sent, &bytes[..count]);
        }
        moved
    }

    /// The bytes that were read.
    pub(crate) fn received(&self) -> Tag
        ensures { result.numbers ≡ self.now.received }
    {
        extended(&self.received, b"")
    }

    /// Shuts down the write side.
    pub(crate) fn shutdown_write(&self) {
        self.socket.shutdown_write();
    }
}
