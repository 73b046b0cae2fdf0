//! The system's keepalive: it finds out that a silent peer is gone.
use libc::net as c;
use mio::net::TcpStream;
use std::os::fd::AsRawFd;

/// Seconds of silence on a connection before the first probe of its peer (own).
const SILENCE: u32 = 60;

/// Seconds from one probe to the next (own).
const INTERVAL: u32 = 10;

/// The number of probes: a connection whose peer answers none of them is broken (own).
const QUESTIONS: u32 = 6;

/// Turns keepalive on for the connection, as far as the system allows.
pub(crate) fn keep_alive(stream: &TcpStream) {
    let fd = stream.as_raw_fd();
    let (on, silence) = (value_of(1), value_of(SILENCE));
    let (interval, questions) = (value_of(INTERVAL), value_of(QUESTIONS));
    unsafe {
        c::setsockopt(fd, c::SOL_SOCKET, c::SO_KEEPALIVE, &on, 4);
        c::setsockopt(fd, c::IPPROTO_TCP, c::TCP_KEEPIDLE, &silence, 4);
        c::setsockopt(fd, c::IPPROTO_TCP, c::TCP_KEEPINTVL, &interval, 4);
        c::setsockopt(fd, c::IPPROTO_TCP, c::TCP_KEEPCNT, &questions, 4);
    }
}

/// A number as the value of an option, of which the system reads the first four bytes.
fn value_of(number: u32) -> [u8; 16] {
    let mut value = [0u8; 16];
    value[..4].copy_from_slice(&number.to_ne_bytes());
    value
}
