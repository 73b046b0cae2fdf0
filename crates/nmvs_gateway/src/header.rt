//! The header that a gateway begins a connection with.
ghost use Rattle.std.specs.Prelude.{◌≡◌, ◌++◌, ◌<◌, ℕ, List, IfSome, IfNone, IsTrue, false};
ghost use Rattle.nmvs_identifier.specs.Name.{is_name};
ghost use Rattle.nmvs_gateway.specs.Header.{TypedValue, typed_bytes, IsOnlyValue, NamesVerified, HasName, ReadsOver, ReadsHeader};

use nmvs_identifier::Name;

/// The reading of the first bytes of a connection.
#[derive(Clone, Copy, PartialEq, Eq)]
pub enum Header {
    /// The beginning of a header, and the least number of bytes that are missing.
    Begun { missing: usize },
    /// A header of this many bytes, and the common name of the client's verified certificate.
    Whole { name: Name, length: usize },
    /// No header with the name of a verified certificate.
    Broken,
}

/// The beginning of a header over TCP and IPv4: signature, version 2 and command PROXY, family and protocol, and the
/// high byte of the length.
const OVER_IPV4: [u8; 15] = *b"\r\n\r\n\0\r\nQUIT\n\x21\x11\0";

/// The same over IPv6.
const OVER_IPV6: [u8; 15] = *b"\r\n\r\n\0\r\nQUIT\n\x21\x21\0";

/// The type of the value about a connection's TLS, PP2_TYPE_SSL.
const TLS: u8 = 0x20;

/// The type of its part that is the certificate's common name, PP2_SUBTYPE_SSL_CN.
const COMMON_NAME: u8 = 0x22;

/// Reads the header at the front of the bytes that a connection has sent so far. It looks at no byte after the header.
pub fn read_header(bytes: &[u8]) -> Header
    ensures { ReadsHeader bytes.now result }
{
    // Two addresses and two ports have 12 bytes over IPv4, and 36 over IPv6.
    match read_over(bytes, &OVER_IPV4, 12) {
        Header::Broken => read_over(bytes, &OVER_IPV6, 36),
        header => header,
    }
}

/// Reads a header that has this start, and addresses of this number of bytes.
fn read_over(bytes: &[u8], start: &[u8], addresses: usize) -> Header
    ensures { ReadsOver start.now addresses bytes.now result }
{
    let Some(rest) = bytes.strip_prefix(start) else {
        if start.starts_with(bytes) {
            return Header::Begun {
                missing: start.len() - bytes.len() + 1,
            };
        }
        return Header::Broken;
    };
    let [length, rest @ ..] = rest else {
        return Header::Begun { missing: 1 };
    };
    let length = usize::from(*length);
    let Some((content, behind)) = rest.split_at_checked(length) else {
        return Header::Begun {
            missing: length - rest.len(),
        };
    };
    match verified_name(content, addresses) {
        Some(name) => Header::Whole {
            name,
            length: bytes.len() - behind.len(),
        },
        None => Header::Broken,
    }
}

/// The name of the verified certificate, in the content of a header that begins with this number of bytes of addresses.
fn verified_name(content: &[u8], addresses: usize) -> Option<Name>
    ensures some { IfSome result (λ name. HasName addresses content.now name.bytes) }
    ensures none { IfNone result ((name : List ℕ) → HasName addresses content.now name → ⊥) }
{
    let (_, values) = content.split_at_checked(addresses)?;
    let tls = only_value(values, TLS)?;
    name_in(tls)
}

/// The name of the certificate that the client presented in this connection, in the value about its TLS.
fn name_in(tls: &[u8]) -> Option<Name>
    ensures some { IfSome result (λ name. NamesVerified tls.now name.bytes) }
    ensures none { IfNone result ((name : List ℕ) → NamesVerified tls.now name → ⊥) }
{
    let [client, 0, 0, 0, 0, parts @ ..] = tls else {
        return None;
    };
    // The lowest bits: it used TLS (PP2_CLIENT_SSL), and presented a certificate (PP2_CLIENT_CERT_CONN).
    if client % 4 != 3 {
        return None;
    }
    read_name(only_value(parts, COMMON_NAME)?)
}

fn read_name(bytes: &[u8]) -> Option<Name>
    ensures some { IfSome result (λ name. (name.bytes ≡ bytes.now) × IsTrue (is_name bytes.now)) }
    ensures none { IfNone result (is_name bytes.now ≡ false) }
{
    match str::from_utf8(bytes) {
        Ok(text) => Name::read(text).ok(),
        Err(_) => None,
    }
}

/// The one value of this type, among the values in these bytes.
fn only_value(bytes: &[u8], kind: u8) -> Option<&[u8]>
    ensures some { IfSome result (λ value. IsOnlyValue bytes.now kind value.now) }
    ensures none { IfNone result ((value : List ℕ) → IsOnlyValue bytes.now kind value → ⊥) }
{
    let mut found = None;
    let mut rest = bytes;
    while !rest.is_empty() {
        let (of_kind, value, behind) = first_value(rest)?;
        if of_kind == kind {
            if found.is_some() {
                return None;
            }
            found = Some(value);
        }
        rest = behind;
    }
    found
}

/// The type of the first value of these bytes, the value, and the bytes after it.
fn first_value(bytes: &[u8]) -> Option<(u8, &[u8], &[u8])>
    ensures some { IfSome result (λ first. bytes.now
        ≡ typed_bytes (record { kind = first.0; value = first.1.now }) ++ first.2.now) }
    ensures none { IfNone result ((value : TypedValue) (behind : List ℕ)
        → bytes.now ≡ typed_bytes value ++ behind → ⊥) }
{
    let [kind, 0, length, rest @ ..] = bytes else {
        return None;
    };
    let (value, behind) = rest.split_at_checked(usize::from(*length))?;
    Some((*kind, value, behind))
}
