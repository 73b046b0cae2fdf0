//! One request and its answer, over HTTP/1.1 (RFC 9112).
ghost use Rattle.std.specs.Prelude.{◌≡◌, ◌≤◌, ◌+◌, ◌++◌, [], length, drop, IfSome, IsTrue, OnOk, OnSome};
ghost use Rattle.http1.specs.Client.{new_client};
ghost use Rattle.http1.specs.declared.conn.Reading.TheVariants as reads;
ghost use Rattle.http1.specs.declared.decode.Decoder.{Decoder};
ghost use Rattle.nmvs_etcd.specs.Exchanges.{limits, path, IsRequest, IsExchanged, IsSent, AwaitsAnswer, Comes, ComesAfter, HasHead, HasBody};
ghost use Rattle.nmvs_etcd.specs.declared.http.TheConstants.{MOST_ANSWER, PIECE};

use crate::Connection;
use http1::{BodySize, Client, Event, Header, Limits, WriteError};
use httparse::spans::EMPTY_HEADER_SPAN;
use std::alloc::Global;

/// A procedure of the JSON gateway of etcd, version 3 (etcd 3.4, rpc.proto: service KV).
#[derive(Clone, Copy)]
pub enum Procedure {
    Transaction,
    Range,
}

impl Procedure {
    /// The path of the procedure.
    fn path(self) -> &'static [u8]
        ensures { result.now ≡ path self }
    {
        match self {
            Procedure::Transaction => b"/v3/kv/txn",
            Procedure::Range => b"/v3/kv/range",
        }
    }
}

/// The most bytes of an answer, with its head: 16 MiB. A longer one is not read to its end.
pub const MOST_ANSWER: usize = 16_777_216;

/// The bytes that one read takes at most.
const PIECE: usize = 4_096;

/// The most fields of a head, or of trailers.
const MOST_FIELDS: usize = 32;

/// The most bytes of each part of an answer around its body: 16 KiB.
const LIMITS: Limits = Limits {
    max_head_len: 16_384,
    max_extensions_len: 16_384,
    max_trailers_len: 16_384,
};

/// A whole answer: its status (RFC 9110, section 15) and its body.
#[derive(Drop)]
pub struct Answer {
    pub status: u16,
    pub body: Vec<u8>,
}

/// The head of an answer: its status, and the number of bytes up to its end.
#[derive(Clone, Copy)]
struct Head {
    status: u16,
    end: usize,
}

/// Sends a request with this body, and reads its answer. Returns the answer if it was read whole and nothing came after it.
/// Nothing is known otherwise, and the connection is of no more use.
pub fn exchange<C: Connection>(
    alloc: Global,
    connection: &mut C,
    procedure: Procedure,
    body: &[u8],
) -> Option<Answer>
    ensures { IfSome result (λ answer. IsExchanged procedure body.now answer.status answer.body.items
        (C.sent connection.old) (C.heard connection.old) (C.sent connection.new) (C.heard connection.new)) }
{
    let mut client = Client::new(LIMITS);
    if is_sent(alloc, connection, &mut client, procedure, body) {
        read_answer(alloc, connection, &mut client)
    } else {
        None
    }
}

/// Sends a request with this body. Returns whether all of it was sent.
fn is_sent<C: Connection>(
    alloc: Global,
    connection: &mut C,
    client: &mut Client,
    procedure: Procedure,
    body: &[u8],
) -> bool
    requires { client.old ≡ new_client limits }
    ensures { IsTrue result → IsSent procedure body.now client.new
        (C.sent connection.old) (C.heard connection.old) (C.sent connection.new) (C.heard connection.new) }
{
    let mut request = Vec::new(alloc);
    match write_request(client, &mut request, procedure, body) {
        Ok(()) => connection.send(&request).is_ok(),
        Err(_) => false,
    }
}

/// Writes a request with this body.
fn write_request(
    client: &mut Client,
    text: &mut Vec<u8>,
    procedure: Procedure,
    body: &[u8],
) -> Result<(), WriteError>
    requires client { client.old ≡ new_client limits }
    requires empty { text.old.items ≡ [] }
    ensures request { OnOk result (IsRequest procedure body.now text.new.items) }
    ensures awaits { OnOk result (AwaitsAnswer client.new) }
{
    let headers = [
        Header {
            name: b"host",
            value: b"etcd",
        },
        Header {
            name: b"content-type",
            value: b"application/json",
        },
    ];
    let size = BodySize::Known(body.len() as u64);
    client.write_request(text, b"POST", procedure.path(), &headers, size)?;
    client.write_data(text, body)?;
    client.write_end(text, &[])
}

/// Reads the answer to a request that was sent.
fn read_answer<C: Connection>(
    alloc: Global,
    connection: &mut C,
    client: &mut Client,
) -> Option<Answer>
    requires { AwaitsAnswer client.old }
    ensures { IfSome result (λ answer. (C.sent connection.new ≡ C.sent connection.old)
        × Comes answer.status answer.body.items (C.heard connection.old) (C.heard connection.new)) }
{
    let mut heard = Vec::new(alloc);
    let head = read_head(connection, client, &mut heard)?;
    let mut body = Vec::new(alloc);
    read_body(connection, client, &mut heard, head.end, &mut body)?;
    Some(Answer {
        status: head.status,
        body,
    })
}

/// Reads the head of an answer, and maybe some bytes after it. An answer that goes before the final one has no head here.
fn read_head<C: Connection>(
    connection: &mut C,
    client: &mut Client,
    heard: &mut Vec<u8>,
) -> Option<Head>
    requires client { AwaitsAnswer client.old }
    requires empty { heard.old.items ≡ [] }
    ensures sent { OnSome result (C.sent connection.new ≡ C.sent connection.old) }
    ensures heard { OnSome result (C.heard connection.new ≡ C.heard connection.old ++ heard.new.items) }
    ensures head { IfSome result (λ head. HasHead heard.new.items head.status head.end client.new) }
{
    for _ in 0..MOST_ANSWER {
        let mut fields = [EMPTY_HEADER_SPAN; MOST_FIELDS];
        let Ok(progress) = client.read(heard, &mut fields) else {
            return None;
        };
        match progress.event {
            Event::NeedMore => hear(connection, heard)?,
            Event::Head(head) if head.code != 101 => {
                return Some(Head {
                    status: head.code,
                    end: progress.consumed,
                });
            }
            _ => return None,
        }
    }
    None
}

/// Reads the body of an answer after its head, up to its end, and adds it to `body`. Nothing may come after it.
fn read_body<C: Connection>(
    connection: &mut C,
    client: &mut Client,
    heard: &mut Vec<u8>,
    end: usize,
    body: &mut Vec<u8>,
) -> Option<()>
    requires within { end ≤ length heard.old.items }
    requires empty { body.old.items ≡ [] }
    ensures sent { OnSome result (C.sent connection.new ≡ C.sent connection.old) }
    ensures heard { OnSome result (ComesAfter heard.old.items heard.new.items (C.heard connection.old) (C.heard connection.new)) }
    ensures body { (d : Decoder) → client.old.reading ≡ reads.Body d → OnSome result (HasBody d (drop end heard.new.items) body.new.items) }
{
    let mut at = end;
    for _ in 0..u32::MAX {
        let mut fields = [EMPTY_HEADER_SPAN; MOST_FIELDS];
        let unread = &heard[at..];
        let Ok(progress) = client.read(unread, &mut fields) else {
            return None;
        };
        at += progress.consumed;
        match progress.event {
            Event::NeedMore => hear(connection, heard)?,
            Event::Data(span) => add(body, span.of(unread))?,
            Event::End(_) if at == heard.len() => return Some(()),
            _ => return None,
        }
    }
    None
}

/// Adds bytes, if there is memory.
fn add(text: &mut Vec<u8>, bytes: &[u8]) -> Option<()>
    ensures { OnSome result (text.new.items ≡ text.old.items ++ bytes.now) }
{
    text.extend_from_slice(bytes).ok()
}

/// Waits for more bytes of an answer, and adds them.
fn hear<C: Connection>(connection: &mut C, heard: &mut Vec<u8>) -> Option<()>
    ensures sent { OnSome result (C.sent connection.new ≡ C.sent connection.old) }
    ensures heard { OnSome result (ComesAfter heard.old.items heard.new.items (C.heard connection.old) (C.heard connection.new)) }
    ensures bounded { OnSome result (length heard.new.items ≤ MOST_ANSWER + PIECE) }
{
    if heard.len() >= MOST_ANSWER {
        return None;
    }
    let mut piece = [0; PIECE];
    match connection.receive(&mut piece).ok()? {
        0 => None,
        count => add(heard, &piece[..count]),
    }
}
