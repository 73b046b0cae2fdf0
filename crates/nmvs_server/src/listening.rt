//! The sockets and ports at which a server listens.
use crate::{Fault, Host};
use log::{Log, error, info, warn};
use nmvs_connections::{HttpListener, Listener};
use nmvs_exposition::most_files;
use nmvs_operator::Options;
use std::hash::RandomState;
use std::net::{Net, SocketAddr};
use std::rt::Files;
use std::{fs, io};

/// The most descriptors that a server takes, next to those of its connections (own).
const FURTHER_DESCRIPTORS: u64 = 48;

/// Listens on the socket of the options, or else on their address. If one session is served over the console, it listens
/// nowhere.
///
/// # Errors
///
/// The system refused it, which is logged.
pub(crate) fn listen<'o, R: Host>(
    rt: &R,
    options: &'o Options,
) -> Result<Option<Listener>, Fault<'o>> {
    if options.stdin {
        return Ok(None);
    }
    tell_descriptors(rt, options);
    match open_listener(rt, &options.socket, options.address) {
        Ok(listener) => Ok(Some(listener)),
        Err(error) => Err(refused(rt, Fault::of_listening(options), error)),
    }
}

/// Listens for HTTP where the options say, if they do.
///
/// # Errors
///
/// The system refused it, which is logged, or gives no random bytes.
pub(crate) fn listen_http<'o, R: Host>(
    rt: &R,
    options: &'o Options,
) -> Result<Option<HttpListener>, Fault<'o>> {
    if options.http.is_none() && options.http_socket.is_none() {
        return Ok(None);
    }
    let address = options.http.unwrap_or(options.address);
    let Ok(keys) = RandomState::new(rt) else {
        return Err(Fault::Random);
    };
    match open_listener(rt, &options.http_socket, address) {
        Ok(listener) => Ok(Some(HttpListener { listener, keys })),
        Err(error) => Err(refused(rt, Fault::of_http(options, address), error)),
    }
}

/// Tries that the server can listen where the options say, and listens nowhere afterwards.
///
/// # Errors
///
/// As those of [`listen`] and [`listen_http`].
pub(crate) fn try_listening<'o, R: Host>(rt: &R, options: &'o Options) -> Result<(), Fault<'o>> {
    let listener = listen(rt, options)?;
    match listen_http(rt, options) {
        Ok(http) => drop((listener, http)),
        Err(fault) => {
            drop(listener);
            return Err(fault);
        }
    }
    for path in [&options.socket, &options.http_socket] {
        if let Some(path) = path {
            // The next socket there is refused while there is a file.
            let _left = fs::remove_file(rt, path);
        }
    }
    Ok(())
}

/// Listens at the path of a socket, or else at an address.
fn open_listener<R: Files + Net>(
    rt: &R,
    socket: &Option<String>,
    address: SocketAddr,
) -> io::Result<Listener> {
    match socket {
        Some(path) => Listener::on_path(rt, path),
        None => Listener::on_port(rt, address),
    }
}

/// Logs why the server cannot listen, and returns the fault.
fn refused<'o, R: Log>(rt: &R, fault: Fault<'o>, error: io::Error) -> Fault<'o> {
    error!(rt; "{fault}: {error}");
    fault
}

/// Logs how many descriptors the process may have, and warns if these are too few.
fn tell_descriptors<R: Log>(rt: &R, options: &Options) {
    let Some(most) = most_files() else {
        return;
    };
    let connections = options.connections;
    if most < (connections as u64).saturating_add(FURTHER_DESCRIPTORS) {
        warn!(rt; most, connections; "fewer descriptors than connections may be open: raise ulimit -n");
    } else {
        info!(rt; most; "descriptors");
    }
}
