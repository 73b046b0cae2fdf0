//! The texts of responses.
ghost use Rattle.std.specs.Prelude.{◌≡◌, ◌++◌, [], codes, false, if◌then◌else◌, OnOk, OnErr};
ghost use Rattle.nmvs_stream.specs.Delivery.{Writes, DeliversPart};
ghost use Rattle.nmvs_http.specs.Responses as specs;

use crate::asked::Asks;
use crate::fault::Fault;
use itoa::Buffer;
use nmvs_messages::Problem;
use nmvs_stream::{Failed, Sink, write_all};

/// The response that invites a waiting peer to send the body of its request (RFC 9110, section 15.2.1).
const CONTINUE: &[u8] = b"HTTP/1.1 100 Continue\r\n\r\n";

/// Invites the peer to send the body.
pub(crate) fn write_invitation<W: Sink>(sink: &mut W) -> Result<(), Failed>
    ensures ok { OnOk result (Writes (W.taken sink.old) (W.taken sink.new) specs.invitation_text) }
    ensures err { OnErr result (DeliversPart (W.taken sink.old) (W.taken sink.new) specs.invitation_text) }
{
    write_all(sink, CONTINUE)
}

/// Writes the refusal of a request for this fault. It is the last response of a connection.
///
/// # Errors
///
/// The sink failed.
pub fn write_refusal<W: Sink>(sink: &mut W, fault: Fault) -> Result<(), Failed>
    ensures ok { OnOk result (Writes (W.taken sink.old) (W.taken sink.new) (specs.response_text (Asks.Refused fault) false false [])) }
    ensures err { OnErr result (DeliversPart (W.taken sink.old) (W.taken sink.new) (specs.response_text (Asks.Refused fault) false false [])) }
{
    write_response(sink, front_of_fault(fault), false, false, problem(fault))
}

/// Writes a response of these first lines and this body, which is left out if the head alone is wanted.
pub(crate) fn write_response<W: Sink>(
    sink: &mut W,
    front: &[u8],
    is_head: bool,
    stays: bool,
    body: &[u8],
) -> Result<(), Failed>
    ensures ok { OnOk result (Writes (W.taken sink.old) (W.taken sink.new) (specs.composed_text front.now is_head stays body.now)) }
    ensures err { OnErr result (DeliversPart (W.taken sink.old) (W.taken sink.new) (specs.composed_text front.now is_head stays body.now)) }
{
    write_head(sink, front, stays, body.len())?;
    write_all(sink, sent_of(body, is_head))
}

/// The part of the body that is sent: nothing if the head alone is wanted.
fn sent_of(body: &[u8], is_head: bool) -> &[u8]
    ensures { result.now ≡ (if is_head then [] else body.now) }
{
    if is_head { b"" } else { body }
}

/// The first lines of the response to lines.
#[tactic(auto, unfolding(crate::specs::Responses::front_of))]
pub(crate) fn front_of_lines() -> &'static [u8]
    ensures { result.now ≡ specs.front_text Asks.Lines [] }
{
    b"HTTP/1.1 200 OK\r\ncontent-type: application/vnd.nmvs.lines\r\ncache-control: no-store\r\n"
}

/// The first lines of the response that says that the server lives.
#[tactic(auto, unfolding(crate::specs::Responses::front_of))]
pub(crate) fn front_of_health() -> &'static [u8]
    ensures { result.now ≡ specs.front_text Asks.Health [] }
{
    b"HTTP/1.1 200 OK\r\ncontent-type: text/plain; charset=utf-8\r\ncache-control: no-store\r\n"
}

/// The first lines of the response to a bulk, by whether one of its answers is a problem that passes.
#[tactic(auto, unfolding(crate::specs::Responses::front_of))]
pub(crate) fn front_of_bulk(passing: bool) -> &'static [u8]
    ensures { result.now ≡ specs.front_of (specs.bulk_status passing) (codes "application/json") }
{
    if passing {
        b"HTTP/1.1 200 OK\r\nretry-after: 1\r\ncontent-type: application/json\r\ncache-control: no-store\r\n"
    } else {
        front_of_question(None)
    }
}

/// The first lines of the response to one question, by its problem if there is one.
#[tactic(auto, unfolding(crate::specs::Responses::front_of))]
pub(crate) fn front_of_question(problem: Option<Problem>) -> &'static [u8]
    ensures { result.now ≡ specs.front_of (specs.status_where problem) (specs.type_where problem) }
{
    match problem {
        None => b"HTTP/1.1 200 OK\r\ncontent-type: application/json\r\ncache-control: no-store\r\n",
        Some(Problem::Unprocessable) =>
            b"HTTP/1.1 422 Unprocessable Content\r\ncontent-type: application/problem+json\r\ncache-control: no-store\r\n",
        Some(Problem::Forbidden) =>
            b"HTTP/1.1 403 Forbidden\r\ncontent-type: application/problem+json\r\ncache-control: no-store\r\n",
        Some(Problem::Conflict) =>
            b"HTTP/1.1 409 Conflict\r\ncontent-type: application/problem+json\r\ncache-control: no-store\r\n",
        Some(Problem::PreconditionFailed) =>
            b"HTTP/1.1 412 Precondition Failed\r\ncontent-type: application/problem+json\r\ncache-control: no-store\r\n",
        Some(Problem::TooManyRequests) =>
            b"HTTP/1.1 429 Too Many Requests\r\nretry-after: 1\r\ncontent-type: application/problem+json\r\ncache-control: no-store\r\n",
        Some(Problem::Unavailable) =>
            b"HTTP/1.1 503 Service Unavailable\r\nretry-after: 1\r\ncontent-type: application/problem+json\r\ncache-control: no-store\r\n",
        Some(Problem::Unknown) =>
            b"HTTP/1.1 503 Service Unavailable\r\ncontent-type: application/problem+json\r\ncache-control: no-store\r\n",
    }
}

/// The field of the connection, and that of the body's length up to its number.
fn connection_of(stays: bool) -> &'static [u8]
    ensures { result.now ≡ specs.connection_text stays }
{
    if stays {
        b"connection: keep-alive\r\ncontent-length: "
    } else {
        b"connection: close\r\ncontent-length: "
    }
}

/// The first lines of the response to a refused request.
#[tactic(auto, unfolding(crate::specs::Responses::front_of))]
pub(crate) fn front_of_fault(fault: Fault) -> &'static [u8]
    ensures { result.now ≡ specs.front_text (Asks.Refused fault) [] }
{
    match fault {
        Fault::Request =>
            b"HTTP/1.1 400 Bad Request\r\ncontent-type: application/problem+json\r\ncache-control: no-store\r\n",
        Fault::Site =>
            b"HTTP/1.1 403 Forbidden\r\ncontent-type: application/problem+json\r\ncache-control: no-store\r\n",
        Fault::Path =>
            b"HTTP/1.1 404 Not Found\r\ncontent-type: application/problem+json\r\ncache-control: no-store\r\n",
        Fault::MethodNotPost =>
            b"HTTP/1.1 405 Method Not Allowed\r\nallow: POST\r\ncontent-type: application/problem+json\r\ncache-control: no-store\r\n",
        Fault::MethodNotGet =>
            b"HTTP/1.1 405 Method Not Allowed\r\nallow: GET, HEAD\r\ncontent-type: application/problem+json\r\ncache-control: no-store\r\n",
        Fault::Timeout =>
            b"HTTP/1.1 408 Request Timeout\r\ncontent-type: application/problem+json\r\ncache-control: no-store\r\n",
        Fault::Length =>
            b"HTTP/1.1 411 Length Required\r\ncontent-type: application/problem+json\r\ncache-control: no-store\r\n",
        Fault::Body =>
            b"HTTP/1.1 413 Content Too Large\r\ncontent-type: application/problem+json\r\ncache-control: no-store\r\n",
        Fault::Target =>
            b"HTTP/1.1 414 URI Too Long\r\ncontent-type: application/problem+json\r\ncache-control: no-store\r\n",
        Fault::Type =>
            b"HTTP/1.1 415 Unsupported Media Type\r\ncontent-type: application/problem+json\r\ncache-control: no-store\r\n",
        Fault::Host =>
            b"HTTP/1.1 421 Misdirected Request\r\ncontent-type: application/problem+json\r\ncache-control: no-store\r\n",
        Fault::Head =>
            b"HTTP/1.1 431 Request Header Fields Too Large\r\ncontent-type: application/problem+json\r\ncache-control: no-store\r\n",
        Fault::Coding =>
            b"HTTP/1.1 501 Not Implemented\r\ncontent-type: application/problem+json\r\ncache-control: no-store\r\n",
        Fault::Busy =>
            b"HTTP/1.1 503 Service Unavailable\r\nretry-after: 1\r\ncontent-type: application/problem+json\r\ncache-control: no-store\r\n",
    }
}

/// The problem of a fault (RFC 9457).
#[tactic(auto, unfolding(crate::specs::Responses::problem))]
pub(crate) fn problem(fault: Fault) -> &'static [u8]
    ensures { result.now ≡ specs.problem fault }
{
    match fault {
        Fault::Request =>
            b"{\"type\":\"/problems#REQUEST\",\"title\":\"Bad Request\",\"status\":400,\
            \"detail\":\"The bytes are no request of HTTP/1.1.\",\"fault\":\"REQUEST\",\"recorded\":\"no\"}\n",
        Fault::Site => b"{\"type\":\"/problems#SITE\",\"title\":\"Forbidden\",\"status\":403,\
            \"detail\":\"A page of another site sent the request.\",\"fault\":\"SITE\",\"recorded\":\"no\"}\n",
        Fault::Path => b"{\"type\":\"/problems#PATH\",\"title\":\"Not Found\",\"status\":404,\
            \"detail\":\"Nothing is at this path.\",\"fault\":\"PATH\",\"recorded\":\"no\"}\n",
        Fault::MethodNotPost | Fault::MethodNotGet =>
            b"{\"type\":\"/problems#METHOD\",\"title\":\"Method Not Allowed\",\"status\":405,\
            \"detail\":\"The path takes another method.\",\"fault\":\"METHOD\",\"recorded\":\"no\"}\n",
        Fault::Timeout =>
            b"{\"type\":\"/problems#TIMEOUT\",\"title\":\"Request Timeout\",\"status\":408,\
            \"detail\":\"The request did not come whole in time.\",\"fault\":\"TIMEOUT\",\"recorded\":\"no\"}\n",
        Fault::Length =>
            b"{\"type\":\"/problems#LENGTH\",\"title\":\"Length Required\",\"status\":411,\
            \"detail\":\"Neither a length nor chunks say where the body ends.\",\"fault\":\"LENGTH\",\"recorded\":\"no\"}\n",
        Fault::Body =>
            b"{\"type\":\"/problems#BODY\",\"title\":\"Content Too Large\",\"status\":413,\
            \"detail\":\"The body has over 131072 bytes.\",\"fault\":\"BODY\",\"recorded\":\"no\"}\n",
        Fault::Target =>
            b"{\"type\":\"/problems#TARGET\",\"title\":\"URI Too Long\",\"status\":414,\
            \"detail\":\"The target has over 16 KiB.\",\"fault\":\"TARGET\",\"recorded\":\"no\"}\n",
        Fault::Type =>
            b"{\"type\":\"/problems#TYPE\",\"title\":\"Unsupported Media Type\",\"status\":415,\
            \"detail\":\"The path takes a body of another type.\",\"fault\":\"TYPE\",\"recorded\":\"no\"}\n",
        Fault::Host =>
            b"{\"type\":\"/problems#HOST\",\"title\":\"Misdirected Request\",\"status\":421,\
            \"detail\":\"Host names neither an address nor localhost, and no gateway stands in front of the server.\",\"fault\":\"HOST\",\"recorded\":\"no\"}\n",
        Fault::Head =>
            b"{\"type\":\"/problems#HEAD\",\"title\":\"Request Header Fields Too Large\",\"status\":431,\
            \"detail\":\"The head has over 16 KiB or over 64 fields.\",\"fault\":\"HEAD\",\"recorded\":\"no\"}\n",
        Fault::Coding =>
            b"{\"type\":\"/problems#CODING\",\"title\":\"Not Implemented\",\"status\":501,\
            \"detail\":\"The server decodes no coding of a body but chunks.\",\"fault\":\"CODING\",\"recorded\":\"no\"}\n",
        Fault::Busy =>
            b"{\"type\":\"/problems#BUSY\",\"title\":\"Service Unavailable\",\"status\":503,\
            \"detail\":\"The server has no room for one connection more. Connect again.\",\"fault\":\"BUSY\",\"recorded\":\"no\"}\n",
    }
}

/// Writes the head of a response of these first lines, whose body has this number of bytes.
fn write_head<W: Sink>(sink: &mut W, front: &[u8], stays: bool, count: usize) -> Result<(), Failed>
    ensures ok { OnOk result (Writes (W.taken sink.old) (W.taken sink.new) (specs.head_text front.now stays count)) }
    ensures err { OnErr result (DeliversPart (W.taken sink.old) (W.taken sink.new) (specs.head_text front.now stays count)) }
{
    let mut digits = Buffer::new();
    let digits = digits.format(count).as_bytes();
    write_both(sink, front, connection_of(stays))?;
    write_both(sink, digits, b"\r\n\r\n")
}

/// Writes one text, and another one after it.
fn write_both<W: Sink>(sink: &mut W, first: &[u8], second: &[u8]) -> Result<(), Failed>
    ensures ok { OnOk result (Writes (W.taken sink.old) (W.taken sink.new) (first.now ++ second.now)) }
    ensures err { OnErr result (DeliversPart (W.taken sink.old) (W.taken sink.new) (first.now ++ second.now)) }
{
    write_all(sink, first)?;
    write_all(sink, second)
}
