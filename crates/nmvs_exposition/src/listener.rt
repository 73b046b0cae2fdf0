//! The port of metrics, over HTTP.
ghost use Rattle.std.specs.Prelude.{◌<◌, vec_len};

use crate::MetricsService;
use crate::process::ProcessFiles;
use http_server::{Config, Connection, Service};
use log::{Log, warn};
use mio::net::{TcpListener, TcpStream};
use mio::{Events, Interest, Poll, Token};
use nmvs_metrics::{ClockReading, Metrics};
use std::alloc::{AllocError, Global};
use std::fs::File;
use std::hash::RandomState;
use std::io;
use std::io::ErrorKind;
use std::net::{Net, Shutdown, SocketAddr};
use std::random::RandomSource;
use std::rt::{Clock, Files};
use std::time::{Duration, Instant};

/// How many clients are served at once at most: the next one takes the place of the first (own).
const MOST_CLIENTS: usize = 16;

/// The most clients that are accepted one after the other, before the earlier ones have their turn again (own).
const MOST_ACCEPTED: u64 = 4_096;

/// For how many seconds a client stays at most, answered or not (own).
const TIMEOUT: u64 = 5;

/// The most milliseconds from one search for the end of the server and for late clients to the next (own).
const TICK: u64 = 200;

/// The most reads and writes of a client one after the other, while others may wait (own).
const MOST_STEPS: u64 = 64;

/// The token of the listener and of each client: at each wake-up all of them are looked at.
const ANY: Token = Token(0);

/// An address at which metrics are served.
#[derive(Drop)]
pub struct MetricsListener {
    listener: TcpListener,
    poll: Poll,
    process: ProcessFiles,
}

impl MetricsListener {
    /// Listens on this address; port 0 is any that is free.
    ///
    /// # Errors
    ///
    /// The system refuses it.
    pub fn open<R: Net + Files<File = File>>(
        rt: &R,
        address: SocketAddr,
    ) -> io::Result<MetricsListener> {
        let mut listener = TcpListener::bind(rt, address)?;
        let poll = Poll::new(rt)?;
        poll.registry()
            .register(&mut listener, ANY, Interest::READABLE)?;
        let process = ProcessFiles::open(rt);
        Ok(MetricsListener {
            listener,
            poll,
            process,
        })
    }

    /// The port, if the system reports it.
    pub fn port(&self) -> Option<u16> {
        self.listener
            .local_addr()
            .ok()
            .map(|address| address.port())
    }
}

/// Serves the metrics to clients, and counts and logs each step of the system's clock. It ends less than a second after the
/// metrics note that the server ends. A client that stays for 5 seconds is closed, and so is the first of 16 if one more
/// comes. A client that asks at once is answered at once, however many others stay silent.
///
/// # Errors
///
/// The system refused to wait, the clock can't be read, or there is no memory for the events.
pub fn serve_metrics<R: Clock + RandomSource + Log>(
    rt: &R,
    alloc: Global,
    listener: MetricsListener,
    metrics: &Metrics,
) -> io::Result<()> {
    let mut listener = listener;
    let mut events = Events::with_capacity(alloc, MOST_CLIENTS)?;
    let mut clients = Vec::with_capacity(alloc, MOST_CLIENTS.saturating_add(1))?;
    listener.serve(rt, alloc, metrics, &mut events, &mut clients)
}

/// A client: a connection, its requests and answers, and when it was accepted.
#[derive(Drop)]
struct Client {
    stream: TcpStream,
    connection: Connection,
    accepted: Instant,
}

impl MetricsListener {
    /// Accepts clients, and goes on with them, until the metrics note that the server ends. It also checks the clock.
    fn serve<R: Clock + RandomSource + Log>(
        &mut self,
        rt: &R,
        alloc: Global,
        metrics: &Metrics,
        events: &mut Events,
        clients: &mut Vec<Client>,
    ) -> io::Result<()> {
        let mut clock = ClockReading::now(rt);
        if let Some(start) = clock {
            metrics.note_start(start.since_1970);
        }
        for _ in 0..u64::MAX {
            self.poll.poll(events, Some(Duration::from_millis(TICK)))?;
            if metrics.has_ended() {
                return Ok(());
            }
            check_clock(rt, metrics, &mut clock);
            let now = Instant::now(rt)?;
            let mut service = MetricsService::new(alloc, metrics, self.process.read());
            step_all(&mut service, now, clients);
            self.accept_all(rt, alloc, now, &mut service, clients);
        }
        Ok(())
    }

    /// Accepts the clients that wait, and answers what each has asked already. If there is no room for one more, the client
    /// that was accepted first is closed.
    fn accept_all<R: RandomSource, S: Service>(
        &self,
        rt: &R,
        alloc: Global,
        now: Instant,
        service: &mut S,
        clients: &mut Vec<Client>,
    ) {
        for _ in 0..MOST_ACCEPTED {
            let Some(client) = self.next_client(rt, alloc, now) else {
                return;
            };
            let _room_was_made = admit(service, now, clients, client);
        }
    }

    /// The next client that waits.
    fn next_client<R: RandomSource>(&self, rt: &R, alloc: Global, now: Instant) -> Option<Client> {
        let (stream, _peer) = self.listener.accept().ok()?;
        let keys = RandomState::new(rt).ok()?;
        Some(Client {
            stream: self.watched(stream)?,
            connection: Connection::new(alloc, keys, config()),
            accepted: now,
        })
    }

    /// Registers the stream, so that the system reports when it can be read or written.
    fn watched(&self, stream: TcpStream) -> Option<TcpStream> {
        let mut stream = stream;
        let both = Interest::READABLE | Interest::WRITABLE;
        match self.poll.registry().register(&mut stream, ANY, both) {
            Ok(()) => Some(stream),
            Err(_) => None,
        }
    }
}

/// Counts and logs a step of the system's clock since it was read last.
fn check_clock<R: Clock + Log>(rt: &R, metrics: &Metrics, last: &mut Option<ClockReading>) {
    let Some(now) = ClockReading::now(rt) else {
        return;
    };
    if let Some(earlier) = last {
        if let Some(seconds) = now.step_since(earlier) {
            metrics.note_clock_step();
            warn!(rt; seconds; "the system's clock was set");
        }
    }
    *last = Some(now);
}

/// Adds a client after the others, and answers what it has asked already. If one more stays than may be, the first one is
/// closed.
fn admit<S: Service>(
    service: &mut S,
    now: Instant,
    clients: &mut Vec<Client>,
    client: Client,
) -> Result<(), AllocError> {
    clients.push(client)?;
    step_at(service, now, clients, clients.len().saturating_sub(1));
    if clients.len() > MOST_CLIENTS {
        close(clients, 0);
    }
    Ok(())
}

/// No request here has a body.
fn config() -> Config {
    let mut config = Config::default();
    config.max_body_len = 0;
    config
}

/// Goes on with each client, and closes those that are done or stayed too long.
fn step_all<S: Service>(service: &mut S, now: Instant, clients: &mut Vec<Client>) {
    for place in (0..clients.len()).rev() {
        step_at(service, now, clients, place);
    }
}

/// Goes on with the client at this place, and closes it if it is done or stayed too long.
fn step_at<S: Service>(service: &mut S, now: Instant, clients: &mut Vec<Client>, place: usize) {
    let stays = match clients.get_mut(place) {
        Some(client) => client.step(service) && !client.is_late(now),
        None => return,
    };
    if !stays {
        close(clients, place);
    }
}

/// Closes the client at this place.
fn close(clients: &mut Vec<Client>, place: usize)
    requires { place < vec_len clients.old }
{
    drop(clients.remove(place));
}

impl Client {
    /// Reads, answers and writes as far as that goes without waiting. The result is whether the client stays.
    fn step<S: Service>(&mut self, service: &mut S) -> bool {
        for _ in 0..MOST_STEPS {
            self.connection.advance(service);
            if self.connection.is_done() {
                let _broken = self.stream.shutdown(Shutdown::Write);
                return false;
            }
            match self.move_bytes() {
                Ok(()) => {}
                Err(error) => return error.kind() == ErrorKind::WouldBlock,
            }
        }
        true
    }

    /// Writes once what is to be written, or else reads once.
    fn move_bytes(&mut self) -> io::Result<()> {
        if !self.connection.wants_write() {
            self.connection.read_from(&mut self.stream)?;
            return Ok(());
        }
        match self.connection.write_to(&mut self.stream)? {
            0 => Err(io::Error::from(ErrorKind::WriteZero)),
            _ => Ok(()),
        }
    }

    fn is_late(&self, now: Instant) -> bool {
        now.duration_since(self.accepted).as_secs() >= TIMEOUT
    }
}
