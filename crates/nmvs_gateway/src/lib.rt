//! The header of a gateway, PROXY protocol version 2: it names the certificate of the client of a connection.
#![tactic(auto)]

mod header;
mod laws;

pub use header::{Header, read_header};
pub use laws::headers_are_read;
