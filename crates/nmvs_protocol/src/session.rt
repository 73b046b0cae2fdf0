//! A session that takes bytes.
ghost use Rattle.std.specs.Prelude.{◌≡◌, ◌==◌, ◌≤◌, ◌<◌, ◌-◌, ◌++◌, ◌↔◌, [], List, ℕ, Ok, IsTrue, IfNone, IfOk, OnOk, OnErr, if◌then◌else◌, not, length, map, take, drop};
ghost use Rattle.nmvs_stream.specs.Delivery.{Writes, DeliversPart};
ghost use Rattle.nmvs_stream.specs.InputLines.{lines_after, unfinished_line};
ghost use Rattle.nmvs_protocol.specs.Lines.{line_text};
ghost use Rattle.nmvs_protocol.specs.Session.{Answers, TakesLine, session_text};
ghost use Rattle.nmvs_protocol.specs.Texts.{bare, ends_with_reply, text};
ghost use Rattle.nmvs_messages.specs.PendingLines.{kept_part};
ghost use Rattle.nmvs_messages.specs.Peers.{TakesFrom};
ghost use Rattle.nmvs_messages.specs.Withheld.{shown_text, text_left};
ghost use Rattle.nmvs_protocol.specs.Progress.{Fed, Took, TellsWithheld};

use crate::read_line;
use crate::replies::wording;
use nmvs_messages::{
    Answer, Content, Desk, End, Line, LineList, Peer, PendingLine, Piece, Released, Unread,
    Withheld, WithheldAnswers, is_of_repository, tag_text,
};
use nmvs_stream::{Failed, Sink, cut_line, write_all};

/// The state of a session: the line that was begun, the number of lines that were answered, and the limit of that number.
#[derive(Drop)]
pub struct Session {
    line: PendingLine,
    answered: u64,
    limit: u64,
}

/// The progress of a session through some bytes.
#[derive(Drop)]
pub struct Taking<L: LineList> {
    /// The number of bytes that it took, from the front.
    pub bytes: usize,
    /// The end of the session after its answers are written, if it ends.
    pub end: Option<End>,
    /// The lines that follow the last of the answers, if any do.
    pub list: Option<L>,
}

impl Session {
    /// A session without a byte yet, which answers at most this number of lines.
    pub fn new(limit: u64) -> Session
        ensures line { result.line ≡ [] }
        ensures answered { result.answered ≡ 0 }
        ensures limit { result.limit ≡ limit }
    {
        Session {
            line: PendingLine::new(),
            answered: 0,
            limit,
        }
    }

    /// Whether a line was begun whose LF has not come.
    pub fn has_pending_line(&self) -> bool
        ensures { result ≡ not (length self.now.line == 0) }
    {
        !self.line.is_empty()
    }

    /// Answers the whole lines that these bytes of a peer complete, after the earlier bytes. It writes the texts of the answers
    /// to the sink, and leaves the flush to the caller. It takes lines until no more answers can be withheld, and then releases
    /// those together.
    ///
    /// A line of more than 200 bytes is answered once, at its LF. No text takes memory. The help is written as it is,
    /// the lines of a list a piece at a time, and all other texts are composed in place.
    ///
    /// `None` means that the session goes on. Else it has this end, and takes no more bytes.
    pub fn feed<W: Sink, D: Desk>(
        &mut self,
        more: &[u8],
        withheld: &mut WithheldAnswers,
        piece: &mut Piece,
        sink: &mut W,
        from: &Peer,
        desk: &mut D,
    ) -> Option<End>
        ensures { (fed : List ℕ) → self.old.line ≡ kept_part (unfinished_line fed) → self.old.answered ≤ self.old.limit
            → Fed (TakesFrom D.takes from.now) D.releases D.moves self.old desk.old (W.taken sink.old) (lines_after (unfinished_line fed) more.now)
            self.new desk.new (W.taken sink.new) result
            × IfNone result (self.new.line ≡ kept_part (unfinished_line (fed ++ more.now))) }
    {
        withheld.clear();
        let mut rest = more;
        while !rest.is_empty() {
            let taking = self.take(rest, withheld, from, desk);
            let Taking { bytes, end, list } = taking;
            match tell(withheld, list, piece, sink, desk) {
                Some(end) => return Some(end),
                None => {}
            }
            match end {
                Some(end) => return Some(end),
                None => rest = &rest[bytes..],
            }
        }
        None
    }

    /// Takes the lines that these bytes of a peer complete, after the earlier bytes, and adds their answers to the withheld
    /// ones. It stops after a line whose answer may take long or has a list, and before a line whose answer finds no room.
    ///
    /// After those answers are written, the session goes on with the bytes that are left, or has ended.
    pub fn take<D: Desk>(
        &mut self,
        more: &[u8],
        withheld: &mut WithheldAnswers,
        from: &Peer,
        desk: &mut D,
    ) -> Taking<D::List>
        ensures within { result.bytes ≤ length more.now }
        ensures moves { 0 < length more.now → withheld.old ≡ [] → IfNone result.end (0 < result.bytes) }
        ensures takes { (begun : List ℕ) → self.old.line ≡ kept_part begun → self.old.answered ≤ self.old.limit
            → Took (TakesFrom D.takes from.now) self.old desk.old withheld.old begun (take result.bytes more.now) (drop result.bytes more.now)
            self.new desk.new withheld.new result.end (text_left D.List.left result.list) }
    {
        let mut rest = more;
        while let Some((tail, behind)) = cut_line(rest) {
            if self.answered >= self.limit {
                return taken_until(more, rest, Some(End::Limit), None);
            }
            if withheld.is_full() {
                return taken_until(more, rest, None, None);
            }
            rest = behind;
            let (answer, list, quits) = self.take_tail(tail, from, desk);
            let is_long = answer.is_long();
            withheld.push(answer);
            self.answered += 1;
            if quits {
                return taken_until(more, rest, Some(End::Quit), list);
            }
            if is_long || list.is_some() {
                return taken_until(more, rest, None, list);
            }
        }
        self.line.extend(rest);
        Taking {
            bytes: more.len(),
            end: None,
            list: None,
        }
    }

    /// Takes the line that these bytes end. With its answer comes the list of the lines that follow it. The third value is
    /// whether it is QUIT.
    fn take_tail<D: Desk>(
        &mut self,
        tail: &[u8],
        from: &Peer,
        desk: &mut D,
    ) -> (Withheld, Option<D::List>, bool)
        ensures begun { self.new.line ≡ [] }
        ensures counts { (self.new.answered ≡ self.old.answered) × (self.new.limit ≡ self.old.limit) }
        ensures takes { (begun : List ℕ) → self.old.line ≡ kept_part begun
            → TakesLine (TakesFrom D.takes from.now) desk.old (begun ++ tail.now) result.0 desk.new }
        ensures shows { shown_text result.0 ≡ text_left D.List.left result.1 }
        ensures quit { (begun : List ℕ) → self.old.line ≡ kept_part begun
            → (IsTrue result.2 ↔ (begun ++ tail.now ≡ line_text Line.Quit)) }
    {
        // A line that lies in one read is not copied.
        if self.line.is_empty() {
            return take_line(tail, from, desk);
        }
        self.line.extend(tail);
        let taken = take_line(self.line.as_slice(), from, desk);
        self.line.clear();
        taken
    }
}

/// The progress through some bytes of which these are left.
fn taken_until<L: LineList>(
    more: &[u8],
    left: &[u8],
    end: Option<End>,
    list: Option<L>,
) -> Taking<L>
    requires { length left.now ≤ length more.now }
    ensures bytes { result.bytes ≡ length more.now - length left.now }
    ensures end { result.end ≡ end }
    ensures list { result.list ≡ list }
{
    Taking {
        bytes: more.len() - left.len(),
        end,
        list,
    }
}

/// Takes a line, given with at least its kept bytes. With its answer comes the list of the lines that follow it. The third
/// value is whether it is QUIT.
fn take_line<D: Desk>(line: &[u8], from: &Peer, desk: &mut D) -> (Withheld, Option<D::List>, bool)
    ensures takes { (x : List ℕ) → kept_part line.now ≡ kept_part x → TakesLine (TakesFrom D.takes from.now) desk.old x result.0 desk.new }
    ensures shows { shown_text result.0 ≡ text_left D.List.left result.1 }
    ensures quit { (x : List ℕ) → kept_part line.now ≡ kept_part x → (IsTrue result.2 ↔ (x ≡ line_text Line.Quit)) }
{
    let reading = read_line(line);
    let (withheld, list) = answer(&reading, from, desk);
    (withheld, list, is_quit(&reading))
}

/// The answer to a reading, and the list of the lines that follow it. PING, VERSION, HELP, QUIT and a fault are
/// answered without the desk.
fn answer<D: Desk>(
    reading: &Result<Line, Unread>,
    from: &Peer,
    desk: &mut D,
) -> (Withheld, Option<D::List>)
    ensures answers { Answers (TakesFrom D.takes from.now) desk.old reading.now result.0 desk.new }
    ensures shows { shown_text result.0 ≡ text_left D.List.left result.1 }
{
    match reading {
        Ok(Line::Ask(ask)) => {
            let (mut withheld, list) = desk.take(from, ask);
            withheld.set_tag(ask.tag);
            (withheld, list)
        }
        Ok(Line::Ping) => (Withheld::new(Content::Pong), None),
        Ok(Line::Version) => (Withheld::new(Content::Version), None),
        Ok(Line::Help) => (Withheld::new(Content::Help), None),
        Ok(Line::Quit) => (Withheld::new(Content::Bye), None),
        Err(Unread { tag, fault }) => {
            let mut withheld = Withheld::new(Content::Unread(*fault));
            withheld.set_tag(*tag);
            (withheld, None)
        }
    }
}

fn is_quit(reading: &Result<Line, Unread>) -> bool
    ensures { IsTrue result ↔ (reading.now ≡ Ok Line.Quit) }
{
    matches!(reading, Ok(Line::Quit))
}

/// Releases the withheld answers, and writes their texts. The lines of the list follow the last of them. No answer is withheld
/// then.
fn tell<W: Sink, D: Desk>(
    withheld: &mut WithheldAnswers,
    list: Option<D::List>,
    piece: &mut Piece,
    sink: &mut W,
    desk: &mut D,
) -> Option<End>
    ensures none_withheld { withheld.new ≡ [] }
    ensures tells { TellsWithheld D.releases D.moves (text_left D.List.left list) withheld.old desk.old desk.new result (W.taken sink.old) (W.taken sink.new) }
{
    if withheld.is_empty() {
        return None;
    }
    let released = desk.release(withheld);
    let written = write_texts(released, sink);
    withheld.clear();
    let Ok(replied) = written else {
        return Some(End::WriteFault);
    };
    match write_shown(list, replied, piece, sink, desk) {
        Ok(()) => None,
        Err(Failed) => Some(End::WriteFault),
    }
}

/// Writes the texts of the answers, without the lines that follow them. It leaves the flush to the caller. The result is
/// whether the last of them is a reply or a report.
///
/// # Errors
///
/// A write failed. Some of the text may have been taken, from the front.
pub fn write_texts<W: Sink>(released: Released<'_>, sink: &mut W) -> Result<bool, Failed>
    ensures ok { OnOk result (Writes (W.taken sink.old) (W.taken sink.new) (session_text (map bare released.entry))) }
    ensures replied { IfOk result (λ replied. replied ≡ ends_with_reply released.entry) }
    ensures err { OnErr result (DeliversPart (W.taken sink.old) (W.taken sink.new) (session_text (map bare released.entry))) }
{
    let mut replied = false;
    let mut rest = released;
    while let Some((answer, later)) = rest.split_first() {
        write_text(answer, sink)?;
        replied = is_of_repository(answer);
        rest = later;
    }
    Ok(replied)
}

/// Writes the text of an answer, without the lines that follow it.
#[tactic(auto, unfolding(crate::specs::Texts::text))]
fn write_text<W: Sink>(answer: &Answer, sink: &mut W) -> Result<(), Failed>
    ensures ok { OnOk result (Writes (W.taken sink.old) (W.taken sink.new) (text (bare answer.now))) }
    ensures err { OnErr result (DeliversPart (W.taken sink.old) (W.taken sink.new) (text (bare answer.now))) }
{
    let content = wording(&answer.content);
    let content = content.as_str().as_bytes();
    let Some(_) = &answer.tag else {
        return write_all(sink, content);
    };
    let front = tag_text(&answer.tag);
    write_both(front.as_str().as_bytes(), content, sink)
}

/// Writes the lines of a list, unless the line of its answer was turned away.
fn write_shown<W: Sink, D: Desk>(
    list: Option<D::List>,
    replied: bool,
    piece: &mut Piece,
    sink: &mut W,
    desk: &D,
) -> Result<(), Failed>
    ensures ok { OnOk result (Writes (W.taken sink.old) (W.taken sink.new) (if replied then text_left D.List.left list else [])) }
    ensures err { OnErr result (DeliversPart (W.taken sink.old) (W.taken sink.new) (if replied then text_left D.List.left list else [])) }
{
    match list {
        Some(list) if replied => write_list(list, piece, sink, desk),
        _ => Ok(()),
    }
}

/// Writes the lines of a list, a piece at a time.
fn write_list<W: Sink, D: Desk>(
    list: D::List,
    piece: &mut Piece,
    sink: &mut W,
    desk: &D,
) -> Result<(), Failed>
    ensures ok { OnOk result (Writes (W.taken sink.old) (W.taken sink.new) (D.List.left list)) }
    ensures err { OnErr result (DeliversPart (W.taken sink.old) (W.taken sink.new) (D.List.left list)) }
{
    let mut list = list;
    while !list.is_empty() {
        desk.fetch(&mut list, piece);
        write_all(sink, piece.text.as_slice())?;
    }
    Ok(())
}

/// Writes one text, and another one after it.
fn write_both<W: Sink>(first: &[u8], second: &[u8], sink: &mut W) -> Result<(), Failed>
    ensures ok { OnOk result (Writes (W.taken sink.old) (W.taken sink.new) (first.now ++ second.now)) }
    ensures err { OnErr result (DeliversPart (W.taken sink.old) (W.taken sink.new) (first.now ++ second.now)) }
{
    write_all(sink, first)?;
    write_all(sink, second)
}
