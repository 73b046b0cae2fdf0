//! The codec between a socket and a session of lines.
ghost use Rattle.std.specs.Prelude.{◌≡◌, ◌≢◌, ◌≤◌, ◌<◌, ◌↔◌, ◌++◌, [], ℕ, List, None, Some, IsTrue, IsSome, OnOk, OnErr, if◌then◌else◌, length, take, drop, true, false};
ghost use Rattle.http_server.specs.declared.state.State.TheVariants as states;
ghost use Rattle.nmvs_http.specs.Codecs.{AnswersLines, CarriesRequests, CodecState, Decodes, Fits, GoesOn, HandGives, Tells, bytes_given};
ghost use Rattle.nmvs_http.specs.Responses.{composed_text, invitation_text, response_text};

use crate::asked::Asks;
use crate::byte_tag::extended;
use crate::counted_stream::CountedStream;
use crate::fault::Fault;
use crate::request_stream::{Asked, Next};
use crate::response::{
    front_of_bulk, front_of_fault, front_of_health, front_of_lines, front_of_question, problem,
    write_invitation, write_refusal, write_response,
};
use crate::write_buffer::WriteBuffer;
use boxcar::tag::Tag;
use bytes::Bytes;
use nmvs_json::{Refusal, Subject, bulk_body, refusal_body, response_of};
use nmvs_stream::Failed;
use std::alloc::Global;
use std::hash::RandomState;
use std::marker::Model;

/// The most bytes of replies to one request (own).
const LONGEST_REPLIES: usize = 16 * 1024 * 1024;

/// The stage of a codec.
#[derive(Clone, Copy)]
pub enum CodecStage {
    /// The codec reads requests.
    Open,
    /// The codec reads no more requests. The connection closes after the unsent bytes.
    Closing,
    /// Memory ran out, and the connection closes.
    Lost,
}

/// The result of a read.
#[derive(Clone, Copy)]
pub enum Decoded {
    /// This number of bytes of lines, at the front of the buffer.
    Lines(usize),
    /// The codec gave all lines of the request in hand. Its response comes next.
    Whole,
    /// Nothing until the codec is fed more bytes.
    Nothing,
    /// Nothing: the codec reads no more requests.
    Over,
}

/// The request in hand.
#[derive(Drop)]
pub(crate) struct Hand {
    asks: Asks,
    head_alone: bool,
    /// Whether the connection stays open after the response.
    stays: bool,
    /// The bytes of lines that the codec has not given yet.
    lines: Bytes,
}

/// Carries a session of lines over HTTP. It takes the bytes of requests, and gives the lines of their bodies, request by
/// request. It takes the replies to these, and composes the response to each request. The caller moves the bytes.
#[derive(Drop)]
pub struct HttpCodec {
    alloc: Global,
    stage: CodecStage,
    requests: CountedStream,
    hand: Option<Hand>,
    /// The replies to the request in hand.
    gathered: Vec<u8>,
    /// The bytes for the peer.
    told: WriteBuffer,
    /// The number of these bytes that were sent.
    gone: usize,
    given: Tag,
    replies: Tag,
    sent: Tag,
}

impl Model for HttpCodec {
    ghost use Rattle.std.specs.Prelude.{◌≤◌, length, drop};
    ghost use Rattle.nmvs_http.specs.Codecs.{CodecState, IsCodec};

    ghost Value = { CodecState };

    ghost view = { λ c. record { stage = c.stage; stream = c.requests; hand = c.hand; given = c.given.numbers; replies = c.replies.numbers; gathered = c.gathered.items; sent = c.sent.numbers; unsent = drop c.gone c.told.bytes.items } };

    ghost invariant = { λ c. (c.gone ≤ length c.told.bytes.items)
        × IsCodec (record { stage = c.stage; stream = c.requests; hand = c.hand; given = c.given.numbers; replies = c.replies.numbers; gathered = c.gathered.items; sent = c.sent.numbers; unsent = drop c.gone c.told.bytes.items }) };
}

impl HttpCodec {
    /// A codec that was fed nothing. The peer chooses the names of fields, so their maps take secret keys. If requests come
    /// directly, and through no gateway that compares their `Host`, the codec compares it.
    pub fn new(alloc: Global, keys: RandomState, direct: bool) -> HttpCodec
        ensures { result ≡ record { stage = CodecStage.Open; stream = record { direct = direct; fed = []; requests = []; state = states.Open; held = [] }; hand = None; given = []; replies = []; gathered = []; sent = []; unsent = [] } }
    {
        HttpCodec {
            alloc,
            stage: CodecStage::Open,
            requests: CountedStream::new(alloc, keys, direct),
            hand: None,
            gathered: Vec::new(alloc),
            told: WriteBuffer::new(Vec::new(alloc)),
            gone: 0,
            given: Tag::empty(),
            replies: Tag::empty(),
            sent: Tag::empty(),
        }
    }

    /// The stage.
    pub fn stage(&self) -> CodecStage
        ensures { result ≡ self.now.stage }
    {
        self.stage
    }

    /// Whether a request is in hand.
    pub fn has_request(&self) -> bool {
        self.hand.is_some()
    }

    /// Whether bytes were fed after the last request, also if they came in one read with it.
    pub fn has_pending_request(&self) -> bool
        ensures { self.now.stream.held ≢ [] → result ≡ true }
    {
        self.requests.unread() != 0
    }

    /// The memory that it keeps, in bytes: those fed after the last request, and the room of replies and responses.
    pub fn memory(&self) -> usize
        ensures unread { length self.now.stream.held ≤ result }
        ensures replies { length self.now.gathered ≤ result }
        ensures unsent { length self.now.unsent ≤ result }
    {
        let room = self.gathered.capacity();
        let room = room.saturating_add(self.told.bytes.capacity());
        self.requests.unread().saturating_add(room)
    }

    /// Feeds these bytes. Returns the number that it took: all, if there is memory for them.
    pub fn feed(&mut self, more: &[u8]) -> usize
        ensures within { result ≤ length more.now }
        ensures fed { self.new ≡ record self.old { stream = record self.old.stream { fed = self.old.stream.fed ++ take result more.now; held = self.new.stream.held } } }
    {
        self.requests.feed(more)
    }

    /// Reads bytes of lines of the request in hand. If none is in hand, takes the next request first.
    pub fn read(&mut self, buffer: &mut [u8]) -> Decoded
        ensures { Decodes self.old self.new buffer.new result }
    {
        if self.take_request() {
            return self.give(buffer);
        }
        match self.stage {
            CodecStage::Open => Decoded::Nothing,
            CodecStage::Closing | CodecStage::Lost => Decoded::Over,
        }
    }

    /// Takes a request in hand if one has come whole. Returns whether one is in hand.
    fn take_request(&mut self) -> bool
        ensures goes_on { GoesOn self.old self.new }
        ensures given { self.new.given ≡ self.old.given }
    {
        if self.stage != CodecStage::Open {
            return false;
        }
        if self.hand.is_some() {
            return true;
        }
        match self.requests.next() {
            Next::Nothing => {}
            Next::Invitation => self.stage = tell_invitation(&mut self.told),
            Next::Refused(fault) => self.stage = tell_refusal(&mut self.told, fault),
            Next::Lost => self.stage = CodecStage::Lost,
            Next::Request(asked, stays) => {
                self.hand = Some(Hand::of(asked, stays));
                return true;
            }
        }
        false
    }

    /// Gives bytes of lines of the request in hand.
    fn give(&mut self, buffer: &mut [u8]) -> Decoded
        ensures { Decodes self.old self.new buffer.new result }
    {
        let decoded = give_of(&mut self.hand, buffer);
        self.given = given_behind(&self.given, buffer, decoded);
        decoded
    }

    /// Refuses for this fault a request that has not come whole, and closes the connection. Does nothing while one is in hand.
    pub fn refuse(&mut self, fault: Fault)
        ensures goes_on { GoesOn self.old self.new }
        ensures given { self.new.given ≡ self.old.given }
    {
        if self.hand.is_none() && self.stage == CodecStage::Open {
            self.stage = tell_refusal(&mut self.told, fault);
        }
    }

    /// Takes replies to the request in hand. Returns whether there was room for them.
    pub fn write(&mut self, replies: &[u8]) -> bool
        ensures { self.new ≡ (if result then (record self.old { replies = self.old.replies ++ replies.now; gathered = self.old.gathered ++ replies.now }) else self.old) }
    {
        if replies.len() > LONGEST_REPLIES - self.gathered.len().min(LONGEST_REPLIES) {
            return false;
        }
        match self.gathered.extend_from_slice(replies) {
            Ok(()) => {
                self.replies = extended(&self.replies, replies);
                true
            }
            Err(_) => false,
        }
    }

    /// Responds to the request in hand, if all its lines were given or the session of lines has ended in it. The caller
    /// has answered each given line.
    pub fn respond(&mut self, ended: bool)
        requires { AnswersLines self.old.given self.old.replies ended }
        ensures goes_on { GoesOn self.old self.new }
        ensures given { self.new.given ≡ self.old.given }
    {
        if self.stage != CodecStage::Open {
            return;
        }
        let Some(hand) = &self.hand else {
            return;
        };
        if !may_respond(hand, ended) {
            return;
        }
        let stays = stays_behind(hand.stays, ended);
        let replies = self.gathered.as_slice();
        self.stage = tell_response(self.alloc, &mut self.told, hand, stays, replies);
        if self.stage != CodecStage::Lost {
            self.hand = None;
            self.gathered = Vec::new(self.alloc);
        }
    }

    /// The unsent bytes. Unless memory ran out, the sent bytes and these are the messages to the peer, in order. The response
    /// to each request has the text of the answers to its lines.
    pub fn unsent(&self) -> &[u8]
        ensures bytes { result.now ≡ self.now.unsent }
        ensures carries { CarriesRequests self.now }
    {
        self.requests.note_read();
        &self.told.bytes.as_slice()[self.gone..]
    }

    /// Notes that the first unsent bytes, of this number, were sent.
    pub fn advance(&mut self, count: usize)
        requires { count ≤ length self.old.unsent }
        ensures { self.new ≡ record self.old { sent = self.old.sent ++ take count self.old.unsent; unsent = drop count self.old.unsent } }
    {
        let sent = extended(&self.sent, &self.unsent()[..count]);
        self.sent = sent;
        self.gone += count;
        if self.gone == self.told.bytes.len() {
            self.told = WriteBuffer::new(Vec::new(self.alloc));
            self.gone = 0;
        }
    }
}

impl Hand {
    /// A request, and whether the connection stays open after its response.
    fn of(asked: Asked, stays: bool) -> Hand
        ensures { result ≡ record { asks = asked.asks; head_alone = asked.head_alone; stays = stays; lines = asked.lines } }
    {
        let Asked {
            asks,
            head_alone,
            lines,
        } = asked;
        Hand {
            asks,
            head_alone,
            stays,
            lines,
        }
    }
}

/// The tag of the given bytes, with those of this read after them.
fn given_behind(given: &Tag, buffer: &[u8], decoded: Decoded) -> Tag
    requires { Fits decoded buffer.now }
    ensures { result.numbers ≡ given.now.numbers ++ bytes_given decoded buffer.now }
{
    match decoded {
        Decoded::Lines(count) => extended(given, &buffer[..count]),
        Decoded::Whole | Decoded::Nothing | Decoded::Over => extended(given, b""),
    }
}

/// Gives bytes of lines of the request in hand.
fn give_of(hand: &mut Option<Hand>, buffer: &mut [u8]) -> Decoded
    ensures fits { Fits result buffer.new }
    ensures gives { HandGives hand.old hand.new (bytes_given result buffer.new) }
{
    let Some(hand) = hand else {
        return Decoded::Nothing;
    };
    if hand.lines.is_empty() {
        return Decoded::Whole;
    }
    Decoded::Lines(give_lines(&mut hand.lines, buffer))
}

/// Gives bytes of these lines, as many as the buffer has room for. Returns their number.
fn give_lines(lines: &mut Bytes, buffer: &mut [u8]) -> usize
    ensures within { result ≤ length buffer.new }
    ensures given { lines.old ≡ take result buffer.new ++ lines.new }
{
    let count = lines.len().min(buffer.len());
    buffer[..count].copy_from_slice(&lines.as_slice()[..count]);
    lines.advance(count);
    count
}

/// Whether a request may be responded to: all its lines were given, or the session of lines has ended.
fn may_respond(hand: &Hand, ended: bool) -> bool
    ensures { result ≡ true → ended ≡ false → hand.now.lines ≡ [] }
{
    ended || hand.lines.is_empty()
}

/// Whether a connection stays open after a response.
fn stays_behind(stays: bool, ended: bool) -> bool
    ensures { ended ≡ true → result ≡ false }
{
    stays && !ended
}

/// Invites the sender of a request to send its body. Returns the next stage of the codec.
fn tell_invitation(told: &mut WriteBuffer) -> CodecStage
    ensures { Tells told.old.bytes.items told.new.bytes.items invitation_text CodecStage.Open result }
{
    let count = told.bytes.len();
    match write_invitation(told) {
        Ok(()) => CodecStage::Open,
        Err(Failed) => forget(told, count),
    }
}

/// Refuses a request for this fault. Returns the next stage of the codec.
fn tell_refusal(told: &mut WriteBuffer, fault: Fault) -> CodecStage
    ensures { Tells told.old.bytes.items told.new.bytes.items (response_text (Asks.Refused fault) false false []) CodecStage.Closing result }
{
    let count = told.bytes.len();
    match write_refusal(told, fault) {
        Ok(()) => CodecStage::Closing,
        Err(Failed) => forget(told, count),
    }
}

/// Responds to the request in hand with these replies. Returns the next stage of the codec.
fn tell_response(
    alloc: Global,
    told: &mut WriteBuffer,
    hand: &Hand,
    stays: bool,
    replies: &[u8],
) -> CodecStage
    ensures { Tells told.old.bytes.items told.new.bytes.items (response_text hand.now.asks hand.now.head_alone stays replies.now) (if stays then CodecStage.Open else CodecStage.Closing) result }
{
    let alone = hand.head_alone;
    match &hand.asks {
        Asks::Lines => tell_body(told, front_of_lines(), alone, stays, replies),
        Asks::Question(subject) => tell_reply(alloc, told, subject, alone, stays, replies),
        Asks::Questions(subjects) => {
            tell_bulk(alloc, told, subjects.entries(), alone, stays, replies)
        }
        Asks::Health => tell_body(told, front_of_health(), alone, stays, b"ok\n"),
        Asks::Refused(fault) => {
            tell_body(told, front_of_fault(*fault), alone, stays, problem(*fault))
        }
        Asks::Malformed(refusal) => tell_malformed(alloc, told, *refusal, alone, stays),
    }
}

/// Responds to a question with this subject with the answer to it. Returns the next stage of the codec.
fn tell_reply(
    alloc: Global,
    told: &mut WriteBuffer,
    subject: &Subject,
    head_alone: bool,
    stays: bool,
    replies: &[u8],
) -> CodecStage
    ensures { Tells told.old.bytes.items told.new.bytes.items (response_text (Asks.Question subject.now) head_alone stays replies.now) (if stays then CodecStage.Open else CodecStage.Closing) result }
{
    match response_of(alloc, subject, replies) {
        Ok((problem, body)) => {
            tell_body(
                told,
                front_of_question(problem),
                head_alone,
                stays,
                body.as_slice(),
            )
        }
        Err(_) => CodecStage::Lost,
    }
}

/// Responds to a bulk of questions, each with its subject, with the answers to them. Returns the next stage of the codec.
fn tell_bulk(
    alloc: Global,
    told: &mut WriteBuffer,
    subjects: &[Subject],
    head_alone: bool,
    stays: bool,
    replies: &[u8],
) -> CodecStage
    ensures { Tells told.old.bytes.items told.new.bytes.items (response_text (Asks.Questions subjects.now) head_alone stays replies.now) (if stays then CodecStage.Open else CodecStage.Closing) result }
{
    match bulk_body(alloc, subjects, replies) {
        Ok((passing, body)) => tell_body(
            told,
            front_of_bulk(passing),
            head_alone,
            stays,
            body.as_slice(),
        ),
        Err(_) => CodecStage::Lost,
    }
}

/// Responds to a request that is refused for its key or its body of JSON. Returns the next stage of the codec.
fn tell_malformed(
    alloc: Global,
    told: &mut WriteBuffer,
    refusal: Refusal,
    head_alone: bool,
    stays: bool,
) -> CodecStage
    ensures { Tells told.old.bytes.items told.new.bytes.items (response_text (Asks.Malformed refusal) head_alone stays []) (if stays then CodecStage.Open else CodecStage.Closing) result }
{
    match refusal_body(alloc, refusal) {
        Ok(body) => tell_body(
            told,
            front_of_fault(Fault::Request),
            head_alone,
            stays,
            body.as_slice(),
        ),
        Err(_) => CodecStage::Lost,
    }
}

/// Responds with these first lines and this body. Returns the next stage of the codec.
fn tell_body(
    told: &mut WriteBuffer,
    front: &[u8],
    head_alone: bool,
    stays: bool,
    body: &[u8],
) -> CodecStage
    ensures { Tells told.old.bytes.items told.new.bytes.items (composed_text front.now head_alone stays body.now) (if stays then CodecStage.Open else CodecStage.Closing) result }
{
    let count = told.bytes.len();
    match write_response(told, front, head_alone, stays, body) {
        Ok(()) if !stays => CodecStage::Closing,
        Ok(()) => CodecStage::Open,
        Err(Failed) => forget(told, count),
    }
}

/// Drops the bytes after this number: there was no memory for the whole message.
fn forget(told: &mut WriteBuffer, count: usize) -> CodecStage
    ensures lost { result ≡ CodecStage.Lost }
    ensures first { told.new.bytes.items ≡ take count told.old.bytes.items }
{
    told.bytes.truncate(count);
    CodecStage::Lost
}
