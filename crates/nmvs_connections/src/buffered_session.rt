//! A session whose bytes the caller moves.
ghost use Rattle.std.specs.Prelude.{◌≡◌, ◌==◌, ◌<◌, ◌≤◌, ◌+◌, ◌++◌, if◌then◌else◌, List, [], ℕ, None, OnOk, OnErr, false, true, not, length, map, take, drop, vec_len, vec_capacity};
ghost use Rattle.nmvs_messages.specs.Peers.{TakesFrom};
ghost use Rattle.nmvs_stream.specs.InputLines.{unfinished_line};
ghost use Rattle.nmvs_messages.specs.Withheld.{answer_of, text_left};
ghost use Rattle.nmvs_protocol.specs.Progress.{LastShows};
ghost use Rattle.nmvs_connections.specs.Replies.{Asked, LacksMemory, Replies, TellsPart, WordsPart, ended_by, is_replied, replied};
ghost use Rattle.nmvs_connections.specs.Turns.{Kept};

use boxcar::tag::Tag;
use nmvs_http::{WriteBuffer, extended};
use nmvs_messages::{Desk, End, LineList, PIECE_BYTES, Peer, Piece, Released, WithheldAnswers};
use nmvs_protocol::{Session, Taking, write_texts};
use std::alloc::{AllocError, Global};
use std::marker::Model;
use std::mem;

/// The session of one connection: the bytes that it was fed, and the replies to them, the last of which may be unsent.
/// The caller moves the bytes. Many sessions share a desk, and one list of answers that are withheld.
///
/// A list of lines may follow the last of its answers. They are fetched a piece at a time, after the text of that answer.
///
/// Contracts see the bytes that it was fed, its sent and unsent replies, and the text of the lines that follow them.
/// They see how it ended, and which of the withheld answers it waits for.
#[derive(Drop)]
pub struct BufferedSession<L: LineList> {
    session: Session,
    replies: WriteBuffer,
    /// How many bytes of the replies were sent.
    gone: usize,
    /// Where the answers begin that it waits for, among those that are withheld.
    first: usize,
    /// How many answers it waits for.
    waiting: usize,
    /// The lines that follow the last answer, and are still to be fetched.
    list: Option<L>,
    end: Option<End>,
    fed: Tag,
    sent: Tag,
}

impl<L: LineList> Model for BufferedSession<L> {
    ghost use Rattle.std.specs.Prelude.{◌≤◌, ◌++◌, length, drop};
    ghost use Rattle.nmvs_messages.specs.Withheld.{text_left};
    ghost use Rattle.nmvs_connections.specs.Replies.{SessionState, Replies, GoesOn, once_told, while_waiting};

    ghost Value = { SessionState };

    ghost view = { λ d. record {
      fed = d.fed.numbers;
      sent = d.sent.numbers;
      unsent = drop d.gone d.replies.bytes.items;
      listed = once_told d.waiting (text_left L.left d.list);
      ended = d.end;
      first = d.first;
      waiting = d.waiting;
      awaited = while_waiting d.waiting (text_left L.left d.list);
    } };

    ghost invariant = { λ d. (d.gone ≤ length d.replies.bytes.items)
        × GoesOn d.end d.session d.fed.numbers
        × Replies d.fed.numbers ((d.sent.numbers ++ drop d.gone d.replies.bytes.items) ++ once_told d.waiting (text_left L.left d.list)) d.waiting d.end };
}

impl<L: LineList> BufferedSession<L> {
    /// A session that was fed nothing, and that answers at most this number of lines.
    pub fn new(alloc: Global, limit: u64) -> BufferedSession<L>
        ensures { result ≡ record { fed = []; sent = []; unsent = []; listed = []; ended = None; first = 0; waiting = 0; awaited = [] } }
    {
        BufferedSession {
            session: Session::new(limit),
            replies: WriteBuffer::new(Vec::new(alloc)),
            gone: 0,
            first: 0,
            waiting: 0,
            list: None,
            end: None,
            fed: Tag::empty(),
            sent: Tag::empty(),
        }
    }

    /// How the session ended, if it has: it is fed no more then.
    pub fn end(&self) -> Option<End>
        ensures { result ≡ self.now.ended }
    {
        self.end
    }

    /// The replies that are unsent. The sent replies, these, and the lines that follow them are the texts of answers.
    /// Each fed line has one answer, in order. The lines whose answers it waits for have no reply yet.
    pub fn unsent(&self) -> &[u8]
        ensures bytes { result.now ≡ self.now.unsent }
        ensures replies { Replies self.now.fed (replied self.now) self.now.waiting self.now.ended }
    {
        &self.replies.bytes.as_slice()[self.gone..]
    }

    /// Whether a line was begun whose LF has not come.
    pub fn has_pending_line(&self) -> bool
        ensures { self.now.ended ≡ None → result ≡ not (length (unfinished_line self.now.fed) == 0) }
    {
        self.session.has_pending_line()
    }

    /// How many answers it waits for.
    pub fn waiting(&self) -> usize
        ensures { result ≡ self.now.waiting }
    {
        self.waiting
    }

    /// Whether lines follow the replies, and are still to be fetched.
    pub fn is_listing(&self) -> bool
        ensures told { result ≡ true → self.now.waiting ≡ 0 }
        ensures none { result ≡ false → self.now.listed ≡ [] }
    {
        self.waiting == 0 && self.list.is_some()
    }

    /// The memory of its replies and of the list that follows them, in bytes. Room that is not used counts.
    pub fn memory(&self) -> usize
        ensures { length self.now.unsent ≤ result }
    {
        let list = match &self.list {
            Some(list) => list.memory(),
            None => 0,
        };
        self.replies.bytes.capacity().saturating_add(list)
    }

    /// Takes the lines that these bytes complete, as [`Session::take`] does, and returns the number of bytes that it took. The
    /// answers to the lines are put after those that are withheld, and the session waits for their release.
    pub fn take<D: Desk<List = L>>(
        &mut self,
        more: &[u8],
        withheld: &mut WithheldAnswers,
        from: &Peer,
        desk: &mut D,
    ) -> usize
        requires goes_on { self.old.ended ≡ None }
        requires told { self.old.waiting ≡ 0 }
        requires listed { self.old.listed ≡ [] }
        ensures within { result ≤ length more.now }
        ensures fed { self.new.fed ≡ self.old.fed ++ take result more.now }
        ensures replies { (self.new.sent ≡ self.old.sent) × (self.new.unsent ≡ self.old.unsent) × (self.new.listed ≡ []) }
        ensures first { self.new.first ≡ length withheld.old }
        ensures sound { LacksMemory self.new.ended → ⊥ }
        ensures asks { Asked (TakesFrom D.takes from.now) self.old.fed (take result more.now) desk.old desk.new withheld.old withheld.new self.new.waiting self.new.awaited }
    {
        self.first = withheld.len();
        let taking = self.session.take(more, withheld, from, desk);
        let Taking { bytes, end, list } = taking;
        self.waiting = withheld.len() - self.first;
        self.list = list;
        self.end = end;
        self.fed = extended(&self.fed, &more[..bytes]);
        bytes
    }

    /// Turns the answers that it waits for, among these that were released, into replies. The lines that follow the last one
    /// follow them. If there is no memory for the replies, or the answers are not there, the session ends as by a failed write.
    pub fn tell(&mut self, released: &Released<'_>)
        ensures fed { (self.new.fed ≡ self.old.fed) × (self.new.sent ≡ self.old.sent) }
        ensures waits { self.new.waiting ≡ 0 }
        ensures tells { (text : List ℕ) × (self.new.unsent ++ self.new.listed ≡ (self.old.unsent ++ self.old.listed) ++ text)
            × TellsPart self.old.first self.old.waiting released.now self.old.awaited text self.old.ended self.new.ended }
    {
        if self.waiting == 0 {
            return;
        }
        let worded = word_part(released, self.first, self.waiting, &mut self.replies);
        self.waiting = 0;
        self.list = kept_list(self.list.take(), worded);
        self.end = kept_end(self.end, worded);
    }

    /// Fetches one piece of the lines that follow the replies, and adds it to them.
    ///
    /// # Errors
    ///
    /// There is no memory for the lines. Nothing changes.
    pub fn more<D: Desk<List = L>>(&mut self, piece: &mut Piece, desk: &D) -> Result<(), AllocError>
        requires told { self.old.waiting ≡ 0 }
        ensures kept { Kept self.old self.new }
        ensures sent { self.new.sent ≡ self.old.sent }
        ensures fewer { OnOk result (0 < length self.old.listed → length self.new.listed < length self.old.listed) }
        ensures err { OnErr result (self.new ≡ self.old) }
    {
        let Some(list) = &mut self.list else {
            return Ok(());
        };
        let bytes = &mut self.replies.bytes;
        bytes.reserve(PIECE_BYTES)?;
        desk.fetch(list, piece);
        push_all(bytes, piece.text.as_slice());
        if list.is_empty() {
            self.list = None;
        }
        Ok(())
    }

    /// Notes that this number of bytes of the unsent replies was sent, from the front.
    pub fn advance(&mut self, count: usize)
        requires { count ≤ length self.old.unsent }
        ensures sent { self.new.sent ≡ self.old.sent ++ take count self.old.unsent }
        ensures unsent { self.new.unsent ≡ drop count self.old.unsent }
        ensures listed { self.new.listed ≡ self.old.listed }
        ensures fed { self.new.fed ≡ self.old.fed }
        ensures ended { self.new.ended ≡ self.old.ended }
        ensures waits { (self.new.first ≡ self.old.first) × (self.new.waiting ≡ self.old.waiting) × (self.new.awaited ≡ self.old.awaited) }
    {
        let sent = extended(&self.sent, &self.unsent()[..count]);
        self.sent = sent;
        self.gone += count;
    }

    /// Gathers the next replies in this room, and gives back the room that it had, if none are unsent.
    pub fn exchange(&mut self, room: &mut Vec<u8>)
        ensures { self.new ≡ self.old }
    {
        if !self.unsent().is_empty() {
            return;
        }
        room.clear();
        mem::swap(&mut self.replies.bytes, room);
        self.gone = 0;
        room.clear();
    }
}

/// Writes this number of released answers as text, from this place on, without the lines that follow them. The result is whether
/// the last is a reply or a report, or none if they are not there or memory ran out.
fn word_part(
    released: &Released<'_>,
    first: usize,
    count: usize,
    replies: &mut WriteBuffer,
) -> Option<bool>
    ensures { WordsPart first count released.now replies.old.bytes.items replies.new.bytes.items result }
{
    let part = released.part(first, count)?;
    write_texts(part, replies).ok()
}

/// The list of the last answer, if that is a reply or a report after its release.
fn kept_list<L: LineList>(list: Option<L>, worded: Option<bool>) -> Option<L>
    ensures { text_left L.left result ≡ (if is_replied worded then text_left L.left list else []) }
{
    match worded {
        Some(true) => list,
        Some(false) | None => None,
    }
}

/// The end of a session whose answers were worded: as it was. Without memory for them it ends as by a failed write.
fn kept_end(end: Option<End>, worded: Option<bool>) -> Option<End>
    ensures { result ≡ ended_by worded end }
{
    match worded {
        Some(_) => end,
        None => Some(End::WriteFault),
    }
}

/// Adds bytes. There is room for them.
fn push_all(bytes: &mut Vec<u8>, more: &[u8])
    requires { vec_len bytes.old + length more.now ≤ vec_capacity bytes.old }
    ensures { bytes.new.items ≡ bytes.old.items ++ more.now }
{
    let _more = bytes.extend_from_slice(more);
}
