//! Addresses with a port, as options spell them.
ghost use Rattle.std.specs.Prelude.{◌≡◌, ◌==◌, IfSome, IfNone};
ghost use Rattle.std.specs.List.{list_any};
ghost use Rattle.std.specs.declared.net.socket_addr.SocketAddr.{SocketAddr as TheAddress};
ghost use Rattle.nmvs_operator.specs.Address.{IsOwn, Spells};

use std::net::{IpAddr, Ipv4Addr, SocketAddr};

/// The address that a text spells. A port alone is one of 127.0.0.1. Any other text has to be an address with its port,
/// as `127.0.0.1:7161` or `[::1]:7161`.
pub(crate) fn address_in(text: &str) -> Option<SocketAddr>
    ensures spelled { IfSome result (Spells text.now) }
    ensures none { IfNone result ((address : TheAddress) → ¬ Spells text.now address) }
{
    match text.parse::<u16>() {
        Ok(port) => Some(own_address(port)),
        Err(_) => text.parse::<SocketAddr>().ok(),
    }
}

/// This port of 127.0.0.1.
pub(crate) fn own_address(port: u16) -> SocketAddr
    ensures { IsOwn port result }
{
    SocketAddr::new(IpAddr::V4(Ipv4Addr::new(127, 0, 0, 1)), port)
}

/// Whether a text of `--listen` is the path of a Unix socket: it has a slash.
pub(crate) fn is_path(text: &str) -> bool
    ensures { result ≡ list_any (λ b. b == 47) text.now }
{
    text.as_bytes().contains(&b'/')
}
