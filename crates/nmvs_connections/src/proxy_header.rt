//! The header of a gateway, which a connection begins with.
ghost use Rattle.nmvs_connections.specs.ProxyHeader.{ReadsProxyHeader};

use nmvs_gateway::{Header, read_header};
use nmvs_messages::{NameOf, Peer};

/// The first bytes of a connection, read as a gateway's header.
#[derive(Clone, Copy)]
pub(crate) enum ProxyHeader {
    /// The header has at least this number of bytes more. No byte after it is to be read yet.
    Begun { missing: usize },
    /// They are a header, which names the peer.
    Whole(Peer),
    /// They are no header with the name of a verified certificate.
    Broken,
}

/// Reads these bytes, all that came of a connection so far, as a gateway's header.
pub(crate) fn read_proxy_header(bytes: &[u8], name_of: NameOf) -> ProxyHeader
    ensures { ReadsProxyHeader bytes.now name_of result }
{
    match read_header(bytes) {
        Header::Begun { missing } => ProxyHeader::Begun { missing },
        Header::Whole { name, length } if length == bytes.len() => {
            ProxyHeader::Whole(name_of.peer(name))
        }
        Header::Whole { .. } | Header::Broken => ProxyHeader::Broken,
    }
}
