//! The kinds of requests.
ghost use Rattle.std.specs.Prelude.{◌≡◌, codes, option_copied};
ghost use Rattle.http_header.specs.Token.{lowercase};
ghost use Rattle.std.specs.List.{list_all};
ghost use Rattle.std.specs.Str.{bytes_eq};
ghost use Rattle.nmvs_http.specs.Requests as specs;

use crate::fault::Fault;
use bytes::Bytes;
use http::Request;
use nmvs_json::{BulkSubjects, Refusal, Subject};

/// The kind of a request.
#[derive(Drop)]
pub enum Asks {
    /// Asks for the replies to the lines of its body.
    Lines,
    /// Asks for the reply to the question in its body of JSON, which has this subject.
    Question(Subject),
    /// Asks for the replies to the questions in its body of JSON, each of which has its subject.
    Questions(BulkSubjects),
    /// Asks whether the server lives.
    Health,
    /// Is refused for this fault.
    Refused(Fault),
    /// Is refused for its key or for its body of JSON. It has a second key, or is a bulk, whose questions have their own.
    Malformed(Refusal),
}

/// The media type of a body of lines (own, a vendor type of RFC 6838, section 3.2). A page of another site cannot send it
/// without leave: it can send `text/plain` and the types of forms alone (Fetch, section 2.2.2).
pub(crate) const LINES_TYPE: &[u8] = b"application/vnd.nmvs.lines";

/// The type of a question (RFC 8259, section 11), which a page of another site cannot send either.
pub(crate) const JSON_TYPE: &[u8] = b"application/json";

/// The values of `Sec-Fetch-Site` for a page of the same origin, and for a request that no page made (W3C Fetch
/// Metadata, section 2.3).
const SAME_ORIGIN: &[u8] = b"same-origin";

const NO_SITE: &[u8] = b"none";

/// The name of a client's own machine (RFC 6761, section 6.3).
const LOCAL: &[u8] = b"localhost";

/// Whether a request wants the head of a response alone.
pub(crate) fn is_head(request: &Request<Bytes>) -> bool
    ensures { result ≡ specs.wants_head request.now }
{
    request.method().as_str() == "HEAD"
}

/// The kind of a request for the server's health, by its method.
pub(crate) fn asks_by_health(method: &str) -> Asks
    ensures { result ≡ specs.asks_by_health method.now }
{
    match method {
        "GET" | "HEAD" => Asks::Health,
        _ => Asks::Refused(Fault::MethodNotGet),
    }
}

/// The fault of a request that has to be a POST from no other site, whose body has this type and a length.
pub(crate) fn fault_of_post(name: &[u8], request: &Request<Bytes>) -> Option<Fault>
    ensures { result ≡ specs.fault_of_post name.now request.now }
{
    if request.method().as_str() != "POST" {
        return Some(Fault::MethodNotPost);
    }
    if is_foreign(request) {
        return Some(Fault::Site);
    }
    if !has_type(name, request) {
        return Some(Fault::Type);
    }
    if !has_length(request) {
        return Some(Fault::Length);
    }
    None
}

/// Whether the `Host` of a request is a name that may lead elsewhere.
pub(crate) fn has_foreign_host(request: &Request<Bytes>) -> bool
    ensures { result ≡ specs.is_foreign_host (specs.field_value request.now (codes "host")) }
{
    match field(request, "host") {
        Some(host) => !is_address(host) && !is_localhost(host),
        None => false,
    }
}

/// Whether a `Host` names an address, with a port or without.
fn is_address(host: &[u8]) -> bool
    ensures { result ≡ specs.is_address host.now }
{
    match host {
        [b'[', ..] => true,
        _ => are_of_an_address(host),
    }
}

/// Whether all characters stand in an address of four numbers, or before its port.
fn are_of_an_address(host: &[u8]) -> bool
    ensures { result ≡ list_all specs.is_address_byte host.now }
{
    host.iter().all(|b| is_address_byte(*b))
}

fn is_address_byte(byte: u8) -> bool
    ensures { result ≡ specs.is_address_byte byte }
{
    byte.is_ascii_digit() || byte == b'.' || byte == b':'
}

/// Whether a `Host` is `localhost`, with a port or without.
#[tactic(auto, using(std::proofs::lemmas::List::take_min, std::proofs::lemmas::List::drop_min))]
fn is_localhost(host: &[u8]) -> bool
    ensures { result ≡ specs.is_localhost host.now }
{
    let count = LOCAL.len().min(host.len());
    is_same_name(&host[..count], LOCAL) && ends_host(&host[count..])
}

/// Whether no more of the name of a host follows.
fn ends_host(rest: &[u8]) -> bool
    ensures { result ≡ specs.ends_host rest.now }
{
    matches!(rest, [] | [b':', ..])
}

/// The key of a request, if it has one, without quotation marks around it.
pub(crate) fn key_of(request: &Request<Bytes>) -> Option<&[u8]>
    ensures { option_copied result ≡ specs.key_of request.now }
{
    match field(request, "idempotency-key") {
        Some(key) => Some(unquoted(key)),
        None => None,
    }
}

/// A key without quotation marks around it.
fn unquoted(key: &[u8]) -> &[u8]
    ensures { result.now ≡ specs.unquoted key.now }
{
    if is_quoted(key) {
        &key[1..key.len() - 1]
    } else {
        key
    }
}

/// Whether a key has quotation marks around it.
fn is_quoted(key: &[u8]) -> bool
    ensures { result ≡ specs.is_quoted key.now }
{
    key.len() >= 2 && key[0] == b'"' && key[key.len() - 1] == b'"'
}

/// The first value of a field.
pub(crate) fn field<'r>(request: &'r Request<Bytes>, name: &str) -> Option<&'r [u8]>
    ensures { option_copied result ≡ specs.field_value request.now (lowercase name.now) }
{
    match request.headers().get(name) {
        Some(value) => Some(value.as_bytes()),
        None => None,
    }
}

/// Whether a field stands in a request more than once.
pub(crate) fn is_repeated(request: &Request<Bytes>, name: &str) -> bool
    ensures { result ≡ specs.is_repeated request.now (lowercase name.now) }
{
    let values = request.headers().get_all(name);
    let mut values = values.iter();
    values.next().is_some() && values.next().is_some()
}

/// Whether a browser sent the request for a page of another site.
fn is_foreign(request: &Request<Bytes>) -> bool
    ensures { result ≡ specs.is_foreign (specs.field_value request.now (codes "sec-fetch-site")) }
{
    match field(request, "sec-fetch-site") {
        Some(site) => is_foreign_site(site),
        None => false,
    }
}

fn is_foreign_site(site: &[u8]) -> bool
    ensures { result ≡ specs.is_foreign_site site.now }
{
    site != SAME_ORIGIN && site != NO_SITE
}

/// Whether the body has a media type of this name.
fn has_type(name: &[u8], request: &Request<Bytes>) -> bool
    ensures { result ≡ specs.has_type name.now (specs.field_value request.now (codes "content-type")) }
{
    match field(request, "content-type") {
        Some(kind) => is_type(name, kind),
        None => false,
    }
}

/// Whether a media type has this name, whatever its parameters.
#[tactic(auto, using(std::proofs::lemmas::List::take_min, std::proofs::lemmas::List::drop_min))]
fn is_type(name: &[u8], kind: &[u8]) -> bool
    ensures { result ≡ specs.is_type name.now kind.now }
{
    let count = name.len().min(kind.len());
    is_same_name(&kind[..count], name) && ends_name(&kind[count..])
}

/// Whether two names of media types are the same.
fn is_same_name(a: &[u8], b: &[u8]) -> bool
    ensures { result ≡ bytes_eq (lowercase a.now) (lowercase b.now) }
{
    a.eq_ignore_ascii_case(b)
}

/// Whether no more of a media type's name follows.
fn ends_name(rest: &[u8]) -> bool
    ensures { result ≡ specs.ends_name rest.now }
{
    matches!(rest, [] | [b';' | b' ', ..])
}

/// Whether the head says where the body ends.
fn has_length(request: &Request<Bytes>) -> bool
    ensures { result ≡ specs.has_length request.now }
{
    field(request, "content-length").is_some() || field(request, "transfer-encoding").is_some()
}
