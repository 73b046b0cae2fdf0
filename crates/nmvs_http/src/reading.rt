//! Reads the kinds of requests, and the bytes of lines that they carry.
ghost use Rattle.std.specs.Prelude.{◌≡◌, ◌≢◌, [], Some, IfOk, codes, string_bytes};
ghost use Rattle.http.specs.Request.{body_of};
ghost use Rattle.nmvs_http.specs.Requests as specs;

use crate::asked::{
    Asks, JSON_TYPE, LINES_TYPE, asks_by_health, fault_of_post, field, has_foreign_host,
    is_repeated, key_of,
};
use crate::fault::Fault;
use crate::request_lines::whole_lines;
use bytes::Bytes;
use http::Request;
use nmvs_json::{
    AskedKind, BulkLines, QuestionFault, QuestionLine, Refusal, bulk_lines, question_line,
};
use std::alloc::{AllocError, Global};

/// The kind of a request, and the bytes of lines that it carries.
#[derive(Drop)]
pub(crate) struct Reading {
    pub(crate) asks: Asks,
    pub(crate) lines: Bytes,
}

/// Reads the kind of a request, and the bytes of lines that it carries. If it comes directly, and through no gateway, its `Host`
/// is compared. It fails only if memory runs out.
pub(crate) fn read_request(
    alloc: Global,
    direct: bool,
    request: &Request<Bytes>,
) -> Result<Reading, AllocError>
    ensures { IfOk result (λ reading. reading ≡ specs.reading_of direct request.now) }
{
    if direct && has_foreign_host(request) {
        return Ok(without_lines(Asks::Refused(Fault::Host)));
    }
    read_by_path(alloc, request)
}

/// Reads the kind of a request, and the bytes of lines that it carries, by its path.
#[tactic(auto, unfolding(crate::specs::Requests::reading_by_path))]
fn read_by_path(alloc: Global, request: &Request<Bytes>) -> Result<Reading, AllocError>
    ensures { IfOk result (λ reading. reading ≡ specs.reading_by_path request.now) }
{
    match request.uri().path() {
        "/v1/lines" => read_lines(alloc, request),
        "/v1/questions" => read_bulk(alloc, request),
        "/healthz" => Ok(without_lines(asks_by_health(request.method().as_str()))),
        path => read_at(alloc, AskedKind::at(path), request),
    }
}

/// A request that carries no lines.
fn without_lines(asks: Asks) -> Reading
    ensures { result ≡ record { asks = asks; lines = [] } }
{
    Reading {
        asks,
        lines: Bytes::new(),
    }
}

/// Reads a request at the path of lines.
fn read_lines(alloc: Global, request: &Request<Bytes>) -> Result<Reading, AllocError>
    ensures { IfOk result (λ reading. reading ≡ specs.reading_of_lines (specs.fault_of_post (codes "application/vnd.nmvs.lines") request.now) (body_of request.now)) }
{
    match fault_of_post(LINES_TYPE, request) {
        Some(fault) => Ok(without_lines(Asks::Refused(fault))),
        None => {
            let lines = whole_lines(alloc, request.body())?;
            Ok(Reading {
                asks: Asks::Lines,
                lines,
            })
        }
    }
}

/// Reads a request at the path of this question, or at an unknown path.
fn read_at(
    alloc: Global,
    kind: Option<AskedKind>,
    request: &Request<Bytes>,
) -> Result<Reading, AllocError>
    ensures { IfOk result (λ reading. reading ≡ specs.reading_at kind request.now) }
{
    match kind {
        Some(kind) => read_question(alloc, kind, request),
        None => Ok(without_lines(Asks::Refused(Fault::Path))),
    }
}

/// Reads a request at the path of this question.
fn read_question(
    alloc: Global,
    kind: AskedKind,
    request: &Request<Bytes>,
) -> Result<Reading, AllocError>
    ensures { IfOk result (λ reading. reading ≡ specs.reading_at (Some kind) request.now) }
{
    match fault_of_post(JSON_TYPE, request) {
        Some(fault) => Ok(without_lines(Asks::Refused(fault))),
        None => read_body(alloc, kind, request),
    }
}

/// Reads the key and the body of a request that asks this question.
fn read_body(
    alloc: Global,
    kind: AskedKind,
    request: &Request<Bytes>,
) -> Result<Reading, AllocError>
    ensures { IfOk result (λ reading. reading ≡ specs.reading_of_line (specs.line_of kind request.now)) }
{
    if is_repeated(request, "idempotency-key") {
        return malformed(Refusal::whole(QuestionFault::Key));
    }
    match question_line(alloc, kind, key_of(request), request.body().as_slice()) {
        Ok(QuestionLine { subject, line }) => Ok(Reading {
            asks: Asks::Question(subject),
            lines: bytes_of(line)?,
        }),
        Err(refusal) => malformed(refusal),
    }
}

/// Reads a request at the path of bulks.
fn read_bulk(alloc: Global, request: &Request<Bytes>) -> Result<Reading, AllocError>
    ensures { IfOk result (λ reading. reading ≡ specs.reading_of_bulk (specs.fault_of_post (codes "application/json") request.now) (specs.bulk_of request.now)) }
{
    match fault_of_post(JSON_TYPE, request) {
        Some(fault) => Ok(without_lines(Asks::Refused(fault))),
        None => read_items(alloc, request),
    }
}

/// Reads the body of a request that asks a bulk of questions. Each of them has its own key.
fn read_items(alloc: Global, request: &Request<Bytes>) -> Result<Reading, AllocError>
    ensures { IfOk result (λ reading. reading ≡ specs.reading_of_items (specs.bulk_of request.now)) }
{
    if field(request, "idempotency-key").is_some() {
        return malformed(Refusal::whole(QuestionFault::Key));
    }
    match bulk_lines(alloc, request.body().as_slice()) {
        Ok(BulkLines { subjects, lines }) => {
            let lines = bytes_of(lines)?;
            Ok(Reading {
                asks: Asks::Questions(subjects),
                lines,
            })
        }
        Err(refusal) => malformed(refusal),
    }
}

/// A request that is refused for its key or for its body of JSON.
fn malformed(refusal: Refusal) -> Result<Reading, AllocError>
    ensures refused { IfOk result (λ reading. reading ≡ specs.malformed refusal) }
    ensures memory { IfOk result (λ reading. refusal.fault ≢ QuestionFault.Memory) }
{
    match refusal.fault {
        QuestionFault::Memory => Err(AllocError),
        QuestionFault::Key | QuestionFault::Json | QuestionFault::Fields => {
            Ok(without_lines(Asks::Malformed(refusal)))
        }
    }
}

/// The bytes of a text.
fn bytes_of(text: String) -> Result<Bytes, AllocError>
    ensures { IfOk result (λ bytes. bytes ≡ string_bytes text) }
{
    match Bytes::from_vec(text.into_bytes()) {
        Ok(bytes) => Ok(bytes),
        Err(_) => Err(AllocError),
    }
}
