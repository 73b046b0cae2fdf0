//! The name of the address that a connection comes from.
use nmvs_identifier::Name;
use std::alloc::{AllocError, Global};
use std::net::IpAddr;

/// The name of all connections over a Unix socket (own).
const LOCAL: &str = "local";

/// The name of an address: its text. Of an IPv6 address it has the first 64 bits, the part that names a network (RFC 4291, section
/// 2.5.1). Connections without an address have one name.
///
/// # Errors
///
/// Memory for the text was refused.
pub(crate) fn origin_of(alloc: Global, address: Option<IpAddr>) -> Result<Name, AllocError> {
    let text = match address.map(|address| address.to_canonical()) {
        None => format!(in alloc; "{LOCAL}"),
        Some(IpAddr::V4(address)) => format!(in alloc; "{address}"),
        Some(IpAddr::V6(address)) => {
            let [first, second, third, fourth, ..] = address.segments();
            format!(in alloc; "{first:x}-{second:x}-{third:x}-{fourth:x}")
        }
    };
    // Each of these texts is a name, so memory alone can be refused.
    let text = text.or(Err(AllocError))?;
    Name::read(text.as_str()).or(Err(AllocError))
}
