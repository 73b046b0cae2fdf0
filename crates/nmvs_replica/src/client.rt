//! A client: its connection, who reads over it, and its requests and answers.
use crate::options::ReadsAs;
use crate::replica::Replica;
use arrayvec::ArrayVec;
use http_server::{Config, Connection};
use mio::net::TcpStream;
use nmvs_gateway::{Header, read_header};
use nmvs_identifier::Name;
use std::alloc::Global;
use std::hash::RandomState;
use std::io;
use std::io::{ErrorKind, Read};
use std::net::Shutdown;
use std::time::Instant;

/// For how many seconds a client may be idle (own).
const IDLE: u64 = 30;

/// The most bytes of a body (own): an act's text has at most 400.
const MOST_BODY: usize = 4_096;

/// The most bytes of the header of a gateway: its length is one byte, behind 16 bytes.
const MOST_HEADER: usize = 271;

/// The most reads and writes of a client one after the other, while others may wait (own).
const MOST_STEPS: u64 = 64;

/// A client.
#[derive(Drop)]
pub(crate) struct Client {
    stream: TcpStream,
    connection: Connection,
    /// Who reads, once that is known.
    reader: Option<Name>,
    /// What was read of the gateway's header.
    header: ArrayVec<u8, MOST_HEADER>,
    /// When bytes moved last.
    pub moved: Instant,
}

impl Client {
    /// A client over a stream, at this time.
    pub fn new(
        alloc: Global,
        keys: RandomState,
        stream: TcpStream,
        reads_as: ReadsAs,
        now: Instant,
    ) -> Client {
        Client {
            stream,
            connection: Connection::new(alloc, keys, config()),
            reader: match reads_as {
                ReadsAs::Named => None,
                ReadsAs::User(name) => Some(name),
            },
            header: ArrayVec::new(),
            moved: now,
        }
    }

    /// Whether nothing moved for so long that the client is closed.
    pub fn is_idle(&self, now: Instant) -> bool {
        now.saturating_duration_since(self.moved).as_secs() >= IDLE
    }

    /// Reads, answers and writes as far as that goes without waiting. The result is whether the client stays.
    pub fn step(&mut self, replica: &mut Replica, now: Instant) -> bool {
        for _ in 0..MOST_STEPS {
            if self.reader.is_some() {
                replica.reader = self.reader;
                self.connection.advance(replica);
                if self.connection.is_done() {
                    let _broken = self.stream.shutdown(Shutdown::Write);
                    return false;
                }
            }
            match self.move_bytes() {
                Ok(()) => self.moved = now,
                Err(error) => return error.kind() == ErrorKind::WouldBlock,
            }
        }
        true
    }

    /// Reads once of the gateway's header, and no byte behind it.
    fn read_header(&mut self) -> io::Result<()> {
        match read_header(self.header.as_slice()) {
            Header::Begun { missing } => self.read_missing(missing),
            Header::Whole { name, .. } => {
                self.reader = Some(name);
                Ok(())
            }
            Header::Broken => Err(io::Error::from(ErrorKind::InvalidData)),
        }
    }

    fn read_missing(&mut self, missing: usize) -> io::Result<()> {
        let mut room = [0; MOST_HEADER];
        let Some(room) = room.get_mut(..missing) else {
            return Err(io::Error::from(ErrorKind::InvalidData));
        };
        let count = self.stream.read(room)?;
        if count == 0 {
            return Err(io::Error::from(ErrorKind::UnexpectedEof));
        }
        match self
            .header
            .try_extend_from_slice(room.get(..count).unwrap_or(&[]))
        {
            Ok(()) => Ok(()),
            Err(_) => Err(io::Error::from(ErrorKind::InvalidData)),
        }
    }

    /// Writes once what is to be written, or else reads once.
    fn move_bytes(&mut self) -> io::Result<()> {
        if self.reader.is_none() {
            return self.read_header();
        }
        if !self.connection.wants_write() {
            self.connection.read_from(&mut self.stream)?;
            return Ok(());
        }
        match self.connection.write_to(&mut self.stream)? {
            0 => Err(io::Error::from(ErrorKind::WriteZero)),
            _ => Ok(()),
        }
    }
}

fn config() -> Config {
    let mut config = Config::default();
    config.max_body_len = MOST_BODY;
    config
}
