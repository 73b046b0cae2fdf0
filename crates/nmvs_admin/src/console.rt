//! One console of all sides.
ghost use Rattle.std.specs.Prelude.{◌≡◌, ◌≤◌, length, IfOk};
ghost use Rattle.nmvs_stream.specs.Source.{untouched_source};
ghost use Rattle.nmvs_stream.specs.Sink.{untouched_sink};
ghost use Rattle.nmvs_stream.specs.Device.{told_of, taken_of};

use crate::connections::Connections;
use crate::multiplexer::Multiplexer;
use crate::signals::Signals;
use crate::socket::listen_at;
use log::{Log, error};
use nmvs_stream::{Console, Device, Sink, Source};
use std::alloc::{AllocError, Global};
use std::fs::File;
use std::io;
use std::io::{ErrorKind, Read, Write};
use std::net::Net;
use std::rt::{Clock, Files};
use std::sync::atomic::AtomicBool;
use std::sync::{Arc, Mutex, Wait};
use thiserror::Error;

/// The reason for which there is no console of an administrator.
#[derive(Clone, Copy, Debug, Error)]
pub enum AdminFault {
    #[error("no socket can be made at the path")]
    Socket,
    #[error("there is no memory for it")]
    Memory,
}

impl From<AllocError> for AdminFault {
    fn from(_: AllocError) -> AdminFault {
        AdminFault::Memory
    }
}

/// The state that the two ends of the console share. (In this toolchain a console may hold no references.)
#[derive(Drop)]
struct Shared<R, I, W> {
    rt: R,
    multiplexer: Mutex<Multiplexer<I, W>>,
}

/// The source of the lines of all sides.
#[derive(Drop)]
pub struct Lines<R, I, W> {
    shared: Arc<Shared<R, I, W>>,
}

/// The sink of the answers to them.
#[derive(Drop)]
pub struct Answers<R, I, W> {
    shared: Arc<Shared<R, I, W>>,
}

/// The sides of the console that [`open`] makes.
pub type AdminSides<R, I, W> = (Device<Lines<R, I, W>>, Device<Answers<R, I, W>>);

/// Makes one console of the given one and of the connections of a socket at the path, if a path is named. The sides of the
/// given one are standard input and output. [`remove_socket`](crate::remove_socket) removes the socket at the end.
///
/// It gives whole lines, each of one side. It cuts a line to its first 201 bytes. The text up to the next flush goes to the
/// side of the last line, or to standard output if there is none. A connection that does not take all of its answer in 5
/// seconds is closed, and delays no other. Without a socket the lines end with standard input. With a socket they never end,
/// and a first SIGINT or SIGTERM that the process blocks is a line `STOP`. With a socket the interrupt, once it is set, makes one
/// read fail, and is not set any more.
///
/// # Errors
///
/// No socket can be made at the path, which is logged with the system's reason, or memory was refused.
pub fn open<
    R: Log + Wait + Clock + Files<File = File> + Net + Drop,
    I: Source + Drop,
    W: Sink + Drop,
>(
    rt: R,
    alloc: Global,
    standard: Console<(I, W)>,
    path: Option<&str>,
    interrupt: Option<Arc<AtomicBool>>,
) -> Result<Console<AdminSides<R, I, W>>, AdminFault>
    ensures source { IfOk result (λ console. told_of console.source ≡ untouched_source) }
    ensures sink { IfOk result (λ console. taken_of console.sink ≡ untouched_sink) }
{
    let (connections, signals) = match path {
        Some(path) => (
            Some(connections_at(&rt, alloc, path)?),
            Signals::of_process(&rt),
        ),
        None => (None, Signals::none()),
    };
    let Console { source, sink } = standard;
    let multiplexer = Mutex::new(Multiplexer::new(
        alloc,
        source,
        sink,
        connections,
        signals,
        interrupt,
    ));
    match Arc::new(alloc, Shared { rt, multiplexer }) {
        Ok(shared) => console_of(shared),
        Err(_) => Err(AdminFault::Memory),
    }
}

/// The console whose two ends share this.
fn console_of<R: Log + Wait + Clock + Drop, I: Source + Drop, W: Sink + Drop>(
    shared: Arc<Shared<R, I, W>>,
) -> Result<Console<AdminSides<R, I, W>>, AdminFault>
    ensures source { IfOk result (λ console. told_of console.source ≡ untouched_source) }
    ensures sink { IfOk result (λ console. taken_of console.sink ≡ untouched_sink) }
{
    let lines = Lines {
        shared: Arc::try_clone(&shared)?,
    };
    Ok(Console::new(Device::new(lines), Device::new(Answers { shared })))
}

/// The connections of a socket at the path.
fn connections_at<R: Log + Files + Net>(
    rt: &R,
    alloc: Global,
    path: &str,
) -> Result<Connections, AdminFault> {
    match listen_at(rt, path).and_then(|listener| Connections::open(rt, alloc, listener)) {
        Ok(connections) => Ok(connections),
        Err(error) => Err(fault_of(rt, path, &error)),
    }
}

/// The fault of a socket that cannot be made. It is logged unless it is want of memory.
fn fault_of<R: Log>(rt: &R, path: &str, error: &io::Error) -> AdminFault {
    if error.kind() == ErrorKind::OutOfMemory {
        return AdminFault::Memory;
    }
    error!(rt; "cannot listen at {path}: {error}");
    AdminFault::Socket
}

impl<R: Log + Wait + Clock, I: Source, W: Sink> Read for Lines<R, I, W> {
    fn read(&mut self, buffer: &mut [u8]) -> io::Result<usize> {
        let Shared { rt, multiplexer } = &*self.shared;
        multiplexer.lock(rt).read(rt, buffer)
    }
}

impl<R: Log + Wait + Clock, I: Source, W: Sink> Write for Answers<R, I, W> {
    fn write(&mut self, buffer: &[u8]) -> io::Result<usize> {
        let Shared { rt, multiplexer } = &*self.shared;
        multiplexer.lock(rt).write(rt, buffer)?;
        Ok(buffer.len())
    }

    fn flush(&mut self) -> io::Result<()> {
        let Shared { rt, multiplexer } = &*self.shared;
        multiplexer.lock(rt).end_exchange(rt)
    }
}
