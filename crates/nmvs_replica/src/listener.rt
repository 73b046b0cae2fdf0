//! The port, over HTTP.
use crate::client::Client;
use crate::options::ReadsAs;
use crate::replica::Replica;
use mio::net::{TcpListener, TcpStream};
use mio::{Events, Interest, Poll, Token};
use nmvs_identifier::Moment;
use std::alloc::{AllocError, Global};
use std::fs::File;
use std::hash::RandomState;
use std::io;
use std::io::ErrorKind;
use std::net::{Net, SocketAddr};
use std::random::RandomSource;
use std::rt::{Clock, Files};
use std::time::{Duration, Instant, SystemTime};

/// How many clients are served at once at most: the next one takes the place of that which is idle for longest (own).
const MOST_CLIENTS: usize = 64;

/// The most clients that are accepted one after the other, before the earlier ones have their turn again (own).
const MOST_ACCEPTED: u64 = 4_096;

/// The most milliseconds from one look at the log to the next (own).
const TICK: u64 = 200;

/// The bytes of the log that are read at once (own).
const READ_SIZE: usize = 32_768;

/// The token of the listener and of each client: at each wake-up all of them are looked at.
const ANY: Token = Token(0);

/// An address at which readers are answered.
#[derive(Drop)]
pub(crate) struct ReaderListener {
    listener: TcpListener,
    poll: Poll,
    reads_as: ReadsAs,
}

impl ReaderListener {
    /// Listens on this address; port 0 is any that is free.
    ///
    /// # Errors
    ///
    /// The system refuses it.
    pub fn open<R: Net>(
        rt: &R,
        address: SocketAddr,
        reads_as: ReadsAs,
    ) -> io::Result<ReaderListener> {
        let mut listener = TcpListener::bind(rt, address)?;
        let poll = Poll::new(rt)?;
        poll.registry()
            .register(&mut listener, ANY, Interest::READABLE)?;
        Ok(ReaderListener {
            listener,
            poll,
            reads_as,
        })
    }

    /// The port, if the system reports it.
    pub fn port(&self) -> Option<u16> {
        self.listener
            .local_addr()
            .ok()
            .map(|address| address.port())
    }

    /// Answers readers, and follows the log, until the program is ended from outside.
    ///
    /// # Errors
    ///
    /// The system refused to wait, the clock can't be read, or there is no memory for the events.
    pub fn serve<R: Files<File = File> + Clock + RandomSource>(
        &mut self,
        rt: &R,
        alloc: Global,
        replica: &mut Replica,
    ) -> io::Result<()> {
        let mut events = Events::with_capacity(alloc, MOST_CLIENTS)?;
        let mut clients = Vec::with_capacity(alloc, MOST_CLIENTS.saturating_add(1))?;
        let mut room = vec![in alloc; 0; READ_SIZE]?;
        let mut wait = 0;
        for _ in 0..u64::MAX {
            self.wait(&mut events, wait)?;
            self.answer_all(rt, alloc, replica, &mut clients)?;
            wait = if replica.follow(rt, &mut room) {
                0
            } else {
                TICK
            };
        }
        Ok(())
    }

    /// Waits until a client has asked something, but no longer than this many milliseconds, or until a signal comes.
    fn wait(&mut self, events: &mut Events, milliseconds: u64) -> io::Result<()> {
        match self
            .poll
            .poll(events, Some(Duration::from_millis(milliseconds)))
        {
            Err(fault) if fault.kind() != ErrorKind::Interrupted => Err(fault),
            _ => Ok(()),
        }
    }

    /// Goes on with all clients, and accepts those that wait.
    fn answer_all<R: Clock + RandomSource>(
        &self,
        rt: &R,
        alloc: Global,
        replica: &mut Replica,
        clients: &mut Vec<Client>,
    ) -> io::Result<()> {
        let now = Instant::now(rt)?;
        replica.now = current_moment(rt)?;
        step_all(replica, now, clients);
        for _ in 0..MOST_ACCEPTED {
            let Some(client) = self.next_client(rt, alloc, now) else {
                return Ok(());
            };
            let _room_was_made = admit(replica, now, clients, client);
        }
        Ok(())
    }

    /// The next client that waits.
    fn next_client<R: RandomSource>(&self, rt: &R, alloc: Global, now: Instant) -> Option<Client> {
        let (stream, _peer) = self.listener.accept().ok()?;
        let keys = RandomState::new(rt).ok()?;
        let stream = self.watched(stream)?;
        Some(Client::new(alloc, keys, stream, self.reads_as, now))
    }

    /// Registers the stream, so that the system reports when it can be read or written.
    fn watched(&self, stream: TcpStream) -> Option<TcpStream> {
        let mut stream = stream;
        let both = Interest::READABLE | Interest::WRITABLE;
        match self.poll.registry().register(&mut stream, ANY, both) {
            Ok(()) => Some(stream),
            Err(_) => None,
        }
    }
}

/// The moment by the system's clock.
///
/// # Errors
///
/// It can't be read, or stands before 1970 or behind 2099.
pub(crate) fn current_moment<R: Clock>(rt: &R) -> io::Result<Moment> {
    match moment_of(SystemTime::now(rt)?) {
        Some(moment) => Ok(moment),
        None => Err(io::Error::from(ErrorKind::InvalidData)),
    }
}

fn moment_of(time: SystemTime) -> Option<Moment> {
    let passed = time.duration_since(SystemTime::UNIX_EPOCH).ok()?;
    Moment::new(i64::try_from(passed.as_secs()).ok()?)
}

/// Adds a client after the others, and answers what it has asked already. If one more stays than may be, that which is idle for
/// longest is closed.
fn admit(
    replica: &mut Replica,
    now: Instant,
    clients: &mut Vec<Client>,
    client: Client,
) -> Result<(), AllocError> {
    clients.push(client)?;
    step_at(replica, now, clients, clients.len().saturating_sub(1));
    if clients.len() > MOST_CLIENTS {
        if let Some(place) = longest_idle(clients) {
            close(clients, place);
        }
    }
    Ok(())
}

/// The place of the client that is idle for longest, if there is one.
fn longest_idle(clients: &[Client]) -> Option<usize> {
    let mut longest: Option<(usize, Instant)> = None;
    for (place, client) in clients.iter().enumerate() {
        match longest {
            Some((_, moved)) if moved <= client.moved => {}
            _ => longest = Some((place, client.moved)),
        }
    }
    longest.map(|(place, _)| place)
}

/// Goes on with each client, and closes those that are done or idle.
fn step_all(replica: &mut Replica, now: Instant, clients: &mut Vec<Client>) {
    for place in (0..clients.len()).rev() {
        step_at(replica, now, clients, place);
    }
}

/// Goes on with the client at this place, and closes it if it is done or idle.
fn step_at(replica: &mut Replica, now: Instant, clients: &mut Vec<Client>, place: usize) {
    let stays = match clients.get_mut(place) {
        Some(client) => client.step(replica, now) && !client.is_idle(now),
        None => return,
    };
    if !stays {
        close(clients, place);
    }
}

/// Closes the client at this place, if there is one.
fn close(clients: &mut Vec<Client>, place: usize) {
    if place < clients.len() {
        drop(clients.remove(place));
    }
}
