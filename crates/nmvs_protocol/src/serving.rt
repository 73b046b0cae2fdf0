//! Sessions over a source of bytes.
ghost use Rattle.std.specs.Prelude.{◌≡◌, ◌≤◌, ◌<◌, ◌++◌, List, ℕ, false, IfNone};
ghost use Rattle.nmvs_stream.specs.Sink.{Taken};
ghost use Rattle.nmvs_stream.specs.InputLines.{lines_after, unfinished_line};
ghost use Rattle.nmvs_protocol.specs.Session.{Session as TheSession};
ghost use Rattle.nmvs_messages.specs.PendingLines.{kept_part};
ghost use Rattle.nmvs_messages.specs.Peers.{TakesFrom};
ghost use Rattle.nmvs_protocol.specs.Progress.{Served, has_write_fault};

use crate::Session;
use nmvs_messages::{Desk, End, Limits, Peer, Piece, READ_SIZE, WithheldAnswers};
use nmvs_stream::{Failed, Sink, Source};
use std::alloc::Global;

/// Serves a session of a peer: answers the lines of the source in order. The answers to the whole lines of one read are written
/// together. They are flushed before the next read and before the session ends (own).
///
/// Bytes after the last LF get no answer. QUIT ends the session. [`Session::feed`] applies the limit of lines. Without
/// memory for one piece of a list nothing is read.
pub fn serve<R: Source, W: Sink, D: Desk>(
    alloc: Global,
    source: &mut R,
    sink: &mut W,
    from: &Peer,
    desk: &mut D,
    limits: Limits,
) -> End
    requires source_sound { (R.told source.old).failed ≡ false }
    requires source_open { (R.told source.old).ended ≡ false }
    requires sink_sound { (W.taken sink.old).failed ≡ false }
    ensures { TheSession (TakesFrom D.takes from.now) D.releases D.moves limits desk.old (R.told source.old) (W.taken sink.old)
        desk.new (R.told source.new) (W.taken sink.new) result }
{
    let Ok(mut piece) = Piece::new(alloc) else {
        return End::Memory;
    };
    let mut session = Session::new(limits.lines);
    let mut withheld = WithheldAnswers::new();
    let mut buffer = [0; READ_SIZE];
    for _ in 0..limits.reads {
        match source.read(&mut buffer) {
            Err(Failed) => return End::ReadFault,
            Ok(0) => return End::Ended,
            Ok(count) => {
                let chunk = &buffer[..count];
                match serve_read(
                    &mut session,
                    chunk,
                    &mut withheld,
                    &mut piece,
                    sink,
                    from,
                    desk,
                ) {
                    Some(end) => return end,
                    None => {}
                }
            }
        }
    }
    End::Limit
}

/// Feeds the bytes of one read to the session, and flushes the answers.
fn serve_read<W: Sink, D: Desk>(
    session: &mut Session,
    chunk: &[u8],
    withheld: &mut WithheldAnswers,
    piece: &mut Piece,
    sink: &mut W,
    from: &Peer,
    desk: &mut D,
) -> Option<End>
    ensures { (fed : List ℕ) → session.old.line ≡ kept_part (unfinished_line fed) → session.old.answered ≤ session.old.limit
        → (W.taken sink.old).failed ≡ false
        → Served (TakesFrom D.takes from.now) D.releases D.moves session.old desk.old (W.taken sink.old) (lines_after (unfinished_line fed) chunk.now)
        session.new desk.new (W.taken sink.new) result
        × IfNone result (session.new.line ≡ kept_part (unfinished_line (fed ++ chunk.now))) }
{
    let fed = session.feed(chunk, withheld, piece, sink, from, desk);
    if is_write_fault(fed) {
        return fed;
    }
    match sink.flush() {
        Ok(()) => fed,
        Err(Failed) => Some(End::WriteFault),
    }
}

fn is_write_fault(fed: Option<End>) -> bool
    ensures { result ≡ has_write_fault fed }
{
    matches!(fed, Some(End::WriteFault))
}
