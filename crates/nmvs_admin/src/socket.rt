//! The socket of the operator's commands.
use libc::net as c;
use mio::net::{UnixListener, UnixStream};
use std::fs::Permissions;
use std::io::ErrorKind;
use std::net::Net;
use std::os::fd::{AsFd, AsRawFd, BorrowedFd};
use std::os::unix::fs::{FileTypeExt, PermissionsExt};
use std::os::unix::net;
use std::os::unix::net::SocketAddr;
use std::rt::Files;
use std::{fs, io};

/// The permissions of the socket: its owner alone opens it.
const OWNER_ALONE: u32 = 0o600;

/// The most connections that may wait for an accept: as many as the system allows.
const BACKLOG: i32 = -1;

/// Listens on a socket at the path. It replaces a dead one, on which nobody listens any more.
///
/// # Errors
///
/// There is something else at the path, or the system refuses a socket there.
pub(crate) fn listen_at<R: Files + Net>(rt: &R, path: &str) -> io::Result<UnixListener> {
    match make_socket(rt, path) {
        Err(error) if error.kind() == ErrorKind::AddrInUse && is_dead(rt, path) => {
            fs::remove_file(rt, path)?;
            make_socket(rt, path)
        }
        made => made,
    }
}

/// Removes the socket at the path, which stays after the program's end.
///
/// # Errors
///
/// The system refuses it.
pub fn remove_socket(rt: &impl Files, path: &str) -> io::Result<()> {
    fs::remove_file(rt, path)
}

/// Makes a socket at the path and listens on it.
///
/// It gets its permissions before the server listens on it. Until then the system refuses each connection, so that nobody else
/// comes in between.
fn make_socket<R: Files + Net>(rt: &R, path: &str) -> io::Result<UnixListener> {
    let socket = rt.unix_socket()?;
    bind(rt, socket.as_fd(), path)?;
    if c::listen(socket.as_raw_fd(), BACKLOG) != 0 {
        return Err(io::Error::from(ErrorKind::Other));
    }
    let listener = net::UnixListener::from(socket);
    listener.set_nonblocking(true)?;
    Ok(UnixListener::from_std(listener))
}

/// Binds a socket to the path, and lets its owner alone open it.
fn bind<R: Files>(rt: &R, socket: BorrowedFd<'_>, path: &str) -> io::Result<()> {
    rt.bind_unix(socket, &SocketAddr::from_pathname(path)?)?;
    fs::set_permissions(rt, path, Permissions::from_mode(OWNER_ALONE))
}

/// Whether the path has a socket on which nobody listens.
fn is_dead<R: Files + Net>(rt: &R, path: &str) -> bool {
    let Ok(metadata) = fs::symlink_metadata(rt, path) else {
        return false;
    };
    if !metadata.file_type().is_socket() {
        return false;
    }
    match UnixStream::connect(rt, path) {
        Ok(_living) => false,
        Err(error) => error.kind() == ErrorKind::ConnectionRefused,
    }
}
