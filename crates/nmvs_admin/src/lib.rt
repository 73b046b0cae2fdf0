//! The operator's commands from several sides: standard input, and the connections of a Unix socket of this machine.
//!
//! [`open`] makes one console of them. Its source gives whole lines, one at a time and each of one side. An answer that is
//! written to its sink after a line goes to the side of that line. So one loop serves all sides alike, one command after
//! another. A blocked signal that asks the process to end is a line of its own, `STOP`.
#![tactic(auto)]

mod connection;
mod connections;
mod console;
mod exchange;
mod incoming;
mod logged;
mod multiplexer;
mod signals;
mod socket;

pub use console::{AdminFault, AdminSides, open};
pub use socket::remove_socket;
