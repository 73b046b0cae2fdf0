//! The sides of a console as one: standard input and output, and the connections of a socket.
ghost use Rattle.std.specs.Io.{ReadsAtMost};

use crate::connections::{Connections, MOST_CONNECTIONS};
use crate::exchange::{Answer, Exchange, Side};
use crate::incoming::Incoming;
use crate::logged::{Escaped, last_line};
use crate::signals::Signals;
use log::{Log, info};
use nmvs_messages::{PendingLine, READ_SIZE};
use nmvs_stream::{Failed, Sink, Source, deliver};
use std::alloc::Global;
use std::io;
use std::io::ErrorKind;
use std::rt::Clock;
use std::sync::atomic::{AtomicBool, Ordering};
use std::sync::{Arc, Wait};
use std::time::Duration;

/// The most sides: standard input, and each connection.
const MOST_SIDES: usize = MOST_CONNECTIONS + 1;

/// The milliseconds between two looks for an interrupt (own).
const INTERRUPT_PAUSE: u64 = 100;

/// The command of a signal to end.
const STOP: &[u8] = b"STOP";

/// The answer to a line that a side began and did not end.
const UNENDED: &[u8] = b"FAULT UNENDED\n";

/// The answer to a line for whose answer there is no memory.
const NO_MEMORY: &[u8] = b"FAULT MEMORY\n";

/// Standard input and output, and the connections of a socket, if there is one.
#[derive(Drop)]
pub(crate) struct Multiplexer<I, W> {
    exchange: Exchange,
    input: I,
    output: W,
    incoming: Incoming,
    /// Whether standard input ended.
    is_over: bool,
    connections: Option<Connections>,
    signals: Signals,
    /// Whether a wait for a line is to end without one; `None` if nothing sets it.
    interrupt: Option<Arc<AtomicBool>>,
    /// The side that is looked at first for the next line.
    first: usize,
}

impl<I: Source, W: Sink> Multiplexer<I, W> {
    pub(crate) fn new(
        alloc: Global,
        input: I,
        output: W,
        connections: Option<Connections>,
        signals: Signals,
        interrupt: Option<Arc<AtomicBool>>,
    ) -> Multiplexer<I, W> {
        Multiplexer {
            exchange: Exchange::new(alloc),
            input,
            output,
            incoming: Incoming::new(),
            is_over: false,
            connections,
            signals,
            interrupt,
            first: 0,
        }
    }

    /// Reads on in the line that is handed over, or waits for the next one. It reads nothing once no more lines can come.
    ///
    /// # Errors
    ///
    /// The system refuses to report, or the wait was interrupted.
    pub(crate) fn read<R: Wait + Clock + Log>(
        &mut self,
        rt: &R,
        buffer: &mut [u8],
    ) -> io::Result<usize>
        ensures { ReadsAtMost result buffer.new }
    {
        if self.exchange.is_read() {
            self.wait_for_line(rt)?;
        }
        Ok(self.exchange.read(buffer))
    }

    /// Waits until a line of a side is handed over, or none can come any more.
    fn wait_for_line<R: Wait + Clock + Log>(&mut self, rt: &R) -> io::Result<()> {
        for _ in rt.forever() {
            if self.begin_next() || self.begin_stop() {
                return Ok(());
            }
            if self.takes_interrupt() {
                return Err(io::Error::from(ErrorKind::Interrupted));
            }
            if self.is_over && self.connections.is_none() {
                self.begin_last();
                return Ok(());
            }
            self.end_sides(rt);
            self.poll(rt)?;
        }
        unreachable!()
    }

    /// Hands over a line of the next side that has one. It returns whether there is one. The sides have their turns in a row.
    fn begin_next(&mut self) -> bool {
        for step in 0..MOST_SIDES {
            let place = self.first.wrapping_add(step) % MOST_SIDES;
            let side = side_of(place);
            if let Some(line) = self.next_line(side) {
                self.exchange.begin(side, line, b"\n");
                self.first = place.wrapping_add(1);
                return true;
            }
        }
        false
    }

    /// Hands over `STOP` if a signal to end came. It returns whether one did.
    fn begin_stop(&mut self) -> bool {
        let has_come = self.signals.take();
        if has_come {
            let mut line = PendingLine::new();
            line.extend(STOP);
            self.exchange.begin(Side::Signal, line, b"\n");
        }
        has_come
    }

    /// Whether the wait for a line is interrupted. Each interrupt ends one wait.
    fn takes_interrupt(&self) -> bool {
        match &self.interrupt {
            Some(interrupt) => interrupt.swap(false, Ordering::SeqCst),
            None => false,
        }
    }

    /// The longest wait for the sides until the next look for a signal or an interrupt.
    fn pause(&self) -> Option<Duration> {
        match &self.interrupt {
            Some(_) => Some(Duration::from_millis(INTERRUPT_PAUSE)),
            None => self.signals.pause(),
        }
    }

    /// The next line of a side, if there is one.
    fn next_line(&mut self, side: Side) -> Option<PendingLine> {
        match side {
            Side::Standard => self.incoming.next_line(),
            Side::Signal => None,
            Side::Connection(number) => self.connections.as_mut()?.next_line(number),
        }
    }

    /// Hands over the line that standard input began and did not end, without an end.
    fn begin_last(&mut self) {
        let begun = self.incoming.take_begun();
        if !begun.is_empty() {
            self.exchange.begin(Side::Standard, begun, b"");
        }
    }

    /// Answers the begun lines of the sides that are over, and closes those that are connections.
    fn end_sides<R: Wait + Clock + Log>(&mut self, rt: &R) {
        if self.is_over {
            let begun = self.incoming.take_begun();
            self.end_side(rt, Side::Standard, begun);
        }
        for _ in 0..MOST_CONNECTIONS {
            let over = match &mut self.connections {
                Some(connections) => connections.next_over(),
                None => None,
            };
            let Some((number, begun)) = over else {
                return;
            };
            self.end_side(rt, Side::Connection(number), begun);
            if let Some(connections) = &mut self.connections {
                connections.close(number);
            }
        }
    }

    /// Answers the line that a side began and did not end.
    fn end_side<R: Wait + Clock + Log>(&mut self, rt: &R, side: Side, begun: PendingLine) {
        if !begun.is_empty() {
            self.send_fault(rt, side, Some(&begun), UNENDED);
        }
    }

    /// Polls the sides. It waits if none has sent anything.
    fn poll<R: Clock>(&mut self, rt: &R) -> io::Result<()> {
        let pause = self.pause();
        if let Some(connections) = &mut self.connections {
            let has_work = !self.is_over && connections.is_standard_ready();
            connections.wait(rt, has_work, pause)?;
        }
        self.read_standard();
        Ok(())
    }

    /// Reads standard input once, if it may be read.
    fn read_standard(&mut self) {
        let is_ready = match &self.connections {
            Some(connections) => connections.is_standard_ready(),
            None => true,
        };
        if self.is_over || !is_ready || !self.incoming.is_looked_through() {
            return;
        }
        let mut buffer = [0; READ_SIZE];
        match self.input.read(&mut buffer) {
            Ok(count) if count > 0 => self.incoming.extend(&buffer[..count]),
            Ok(_) | Err(Failed) => self.is_over = true,
        }
        if let Some(connections) = &mut self.connections {
            connections.watch_standard();
        }
    }

    /// Adds these bytes to the answer to the line that was handed over last.
    ///
    /// # Errors
    ///
    /// There is no memory for them. The side gets a fault in place of its answer.
    pub(crate) fn write<R: Wait + Clock + Log>(&mut self, rt: &R, bytes: &[u8]) -> io::Result<()> {
        if self.exchange.write(bytes).is_ok() {
            return Ok(());
        }
        let answer = self.exchange.end();
        self.send_fault(rt, answer.side, answer.line.as_ref(), NO_MEMORY);
        Err(io::Error::from(ErrorKind::OutOfMemory))
    }

    /// Sends the text that was written since the last line to the side of that line. A connection takes it as it can.
    ///
    /// # Errors
    ///
    /// The side does not take it.
    pub(crate) fn end_exchange<R: Wait + Clock + Log>(&mut self, rt: &R) -> io::Result<()> {
        let Answer { side, line, text } = self.exchange.end();
        if let Some(line) = &line {
            log_answer(rt, side, line.as_slice(), &text);
        }
        let is_sent = match (side, &mut self.connections) {
            (Side::Connection(number), Some(connections)) => connections.send(rt, number, text),
            _ => deliver(&mut self.output, &text).is_ok(),
        };
        if is_sent {
            Ok(())
        } else {
            Err(io::Error::from(ErrorKind::BrokenPipe))
        }
    }

    /// Sends a fault to a side in place of an answer, and logs it with the line that it answers.
    fn send_fault<R: Log>(&mut self, rt: &R, side: Side, line: Option<&PendingLine>, fault: &[u8]) {
        if let Some(line) = line {
            log_answer(rt, side, line.as_slice(), fault);
        }
        let _sent = match (side, &mut self.connections) {
            (Side::Connection(number), Some(connections)) => connections.send_now(number, fault),
            _ => deliver(&mut self.output, fault).is_ok(),
        };
    }
}

/// Logs the answer to the line of a side.
fn log_answer<R: Log>(rt: &R, side: Side, line: &[u8], text: &[u8]) {
    let (command, answer) = (Escaped(line), Escaped(last_line(text)));
    info!(rt; side:% = side, command:% = command, answer:% = answer; "command");
}

/// The side at this place of their row.
fn side_of(place: usize) -> Side {
    match place.checked_sub(1) {
        None => Side::Standard,
        Some(number) => Side::Connection(number),
    }
}
