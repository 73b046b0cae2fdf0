//! The rehearsal: a session to learn the repository by, whose every answer is proved.
ghost use Rattle.nmvs_messages.specs.declared.answer.Content.TheVariants.{Replied, Reported};
ghost use Rattle.std.specs.Prelude.{◌≡◌, ◌<◌, ◌∷◌, [], IfOk, length};
ghost use Rattle.nmvs_messages.specs.Withheld.{AtOnce, Stays, content_shown, entries_left, text_left};
ghost use Rattle.nmvs_protocol.specs.Session.{session_limits, Session};
ghost use Rattle.nmvs_line.specs.Export.{export_text};
ghost use Rattle.nmvs_messages.specs.Tags.{tag_text};
ghost use Rattle.nmvs_reports.specs.Report.{product_line, report_lines};
ghost use Rattle.nmvs_reports.specs.Following.{following_text};
ghost use Rattle.nmvs_rules.specs.Rules.{shown_of};
ghost use Rattle.nmvs_stream.specs.Console.{IsFresh};
ghost use Rattle.nmvs_rehearsal.specs.Rehearsal.{Rehearsal, Takes};

use crate::roster::actor_of;
use nmvs_identifier::{Moment, Name, ProductCode, Tag};
use nmvs_messages::{
    Ask, Asked, Content, Desk, End, GatheredEntries, Peer, Piece, Released, SESSION_LIMITS,
    ShownText, Text, Turn, Withheld, WithheldAnswers,
};
use nmvs_protocol::serve;
use nmvs_reports::{Following, ReportList, batches, product_line};
use nmvs_rules::{PackQuestion, Printed, Put, Question, Reply, may, may_report};
use nmvs_shard::{HashKey, NotPut, Outcome, Shard};
use nmvs_stream::{Sink, Source};
use std::alloc::{AllocError, Global};
use std::marker::Model;

/// The seed of a rehearsal's hashes: a user who makes some collide delays nobody else.
const NO_SECRET: u64 = 0;

/// 1 January 2026, 00:00:00 UTC (own).
const NEW_YEAR: i64 = 1_767_225_600;

/// One session of an unknown peer over one empty shard, with eight users of its own (own).
///
/// The first line that reaches the desk is judged at the first moment, the next at the second and so on. All later lines are
/// judged at the last moment. At most 10,000 lines are answered and 4,000,000 reads made.
pub fn rehearse<R: Source, W: Sink>(
    alloc: Global,
    source: &mut R,
    sink: &mut W,
    moments: &[Moment],
) -> End
    requires moments { 0 < length moments.now }
    requires fresh { IsFresh (R.told source.old) (W.taken sink.old) }
    ensures { (last : Rehearsal) × Session Takes AtOnce Stays session_limits
        (record { trail = []; moments = moments.now }) (R.told source.old) (W.taken sink.old)
        last (R.told source.new) (W.taken sink.new) result }
{
    let mut desk = RehearsalDesk {
        alloc: &alloc,
        shard: Shard::new(&alloc, HashKey::of(NO_SECRET)),
        moments,
    };
    serve(
        alloc,
        source,
        sink,
        &Peer::Anyone,
        &mut desk,
        SESSION_LIMITS,
    )
}

/// The rehearsal of a program: each of its lines is judged at 1 January 2026, 00:00:00 UTC (own).
pub fn rehearse_at_new_year<R: Source, W: Sink>(alloc: Global, source: &mut R, sink: &mut W) -> End
    requires { IsFresh (R.told source.old) (W.taken sink.old) }
    ensures { (last : Rehearsal) × Session Takes AtOnce Stays session_limits
        (record { trail = []; moments = 1_767_225_600 ∷ [] }) (R.told source.old) (W.taken sink.old)
        last (R.told source.new) (W.taken sink.new) result }
{
    let moment = Moment::new(NEW_YEAR).unwrap();
    rehearse(alloc, source, sink, &[moment])
}

/// Answers by the rules on one shard.
#[derive(Drop)]
struct RehearsalDesk<'a> {
    alloc: &'a Global,
    shard: Shard<&'a Global>,
    moments: &'a [Moment],
}

impl<'a> Model for RehearsalDesk<'a> {
    ghost use Rattle.std.specs.Prelude.{◌<◌, length};
    ghost use Rattle.nmvs_rehearsal.specs.Rehearsal.{Rehearsal};

    ghost Value = { Rehearsal };

    ghost view = { λ desk. record { trail = desk.shard; moments = desk.moments.now } };

    ghost invariant = { λ desk. 0 < length desk.moments.now };
}

impl<'a> RehearsalDesk<'a> {
    ghost use Rattle.std.specs.Prelude.{◌≡◌};
    ghost use Rattle.nmvs_rehearsal.specs.Rehearsal.{TakesMoment, JudgesQuestion, JudgesReport};

    /// The moment of the next line, which counts as having reached the desk.
    fn next_moment(&mut self) -> Moment
        ensures { TakesMoment self.old result self.new }
    {
        match self.moments {
            [last] => *last,
            [moment, later @ ..] => {
                self.moments = later;
                *moment
            }
            [] => unreachable!(),
        }
    }

    /// Judges a question at the moment.
    fn judge(
        &mut self,
        moment: Moment,
        user: &Name,
        tag: Option<Tag>,
        question: &Question,
        printed: &Option<Printed>,
    ) -> (Content, Option<Following<GatheredEntries<&'a Global>>>)
        ensures judges { JudgesQuestion moment self.old user.now tag question.now printed.now result.0 self.new }
        ensures shows { content_shown result.0 ≡ text_left (following_text export_text) result.1 }
    {
        let Some(actor) = actor_of(user) else {
            return (Content::Turned(Turn::Nobody), None);
        };
        let put = Put {
            moment,
            user: *user,
            actor,
            question: *question,
            tag,
        };
        // They are gathered first, because an entry that is stored stays.
        let Ok(list) = self.entries_shown(&put) else {
            return (Content::Turned(Turn::Memory), None);
        };
        match self.shard.ask(&put, printed) {
            Ok(Outcome::New(answered)) => replied(answered.reply, list),
            Ok(Outcome::Again(answered)) => replied(answered.reply, None),
            Ok(Outcome::NotPut(NotPut::Other, _)) => (Content::Turned(Turn::Tag), None),
            Ok(Outcome::NotPut(NotPut::Differs, _)) => (Content::Turned(Turn::Differs), None),
            Ok(Outcome::NotPut(NotPut::Changed, _)) => (Content::Turned(Turn::Changed), None),
            Err(AllocError) => (Content::Turned(Turn::Memory), None),
        }
    }

    /// The entries that the reply to a question shows, if it is new.
    fn entries_shown(&self, put: &Put) -> Result<Option<GatheredEntries<&'a Global>>, AllocError>
        ensures { IfOk result (λ list. entries_left (λ s. s) list ≡ shown_of self.now.trail put.now) }
    {
        match &put.question {
            Question::OfPack(PackQuestion::Audit, pack) if may(put.actor.role, &put.question) => {
                Ok(Some(GatheredEntries::new(self.shard.entries_of(pack)?)))
            }
            _ => Ok(None),
        }
    }

    /// Reports on a product code to a user who may have it, on a line with this tag, if it has one. It leaves no entry.
    fn report(
        &self,
        user: &Name,
        code: &ProductCode,
        tag: Option<Tag>,
    ) -> (Content, Option<Following<GatheredEntries<&'a Global>>>)
        ensures judges { JudgesReport self.now.trail user.now tag code.now result.0 }
        ensures shows { content_shown result.0 ≡ text_left (following_text export_text) result.1 }
    {
        let Some(actor) = actor_of(user) else {
            return (Content::Turned(Turn::Nobody), None);
        };
        if !may_report(actor.role) {
            return (Content::Turned(Turn::Role), None);
        }
        match self.reported(code, tag) {
            Ok((content, list)) => (content, list),
            Err(AllocError) => (Content::Turned(Turn::Memory), None),
        }
    }

    /// The report of a product code, and the list of the lines after its first.
    fn reported(
        &self,
        code: &ProductCode,
        tag: Option<Tag>,
    ) -> Result<(Content, Option<Following<GatheredEntries<&'a Global>>>), AllocError>
        ensures content { IfOk result (λ r. r.0 ≡ Reported (product_line self.now.trail code.now) (report_lines (tag_text tag) self.now.trail code.now)) }
        ensures shows { IfOk result (λ r. content_shown r.0 ≡ text_left (following_text export_text) r.1) }
    {
        let batches = batches(*self.alloc, self.shard.tables(), code)?;
        let first = Text::new(product_line(*self.alloc, &self.shard, code)?);
        let list = Some(Following::Batches(ReportList::new(tag, batches)));
        let shown = ShownText::of(&list);
        Ok((Content::Reported(first, shown), list))
    }
}

/// The reply to a question, with the list of the entries that it shows.
fn replied<'a>(
    reply: Reply,
    list: Option<GatheredEntries<&'a Global>>,
) -> (Content, Option<Following<GatheredEntries<&'a Global>>>)
    ensures content { result.0 ≡ Replied reply (export_text (entries_left (λ s. s) list.entry)) }
    ensures list { text_left (following_text export_text) result.1 ≡ export_text (entries_left (λ s. s) list.entry) }
{
    let list = Following::of_entries(list);
    (Content::Replied(reply, ShownText::of(&list)), list)
}

impl<'a> Desk for RehearsalDesk<'a> {
    ghost use Rattle.nmvs_messages.specs.Withheld.{AtOnce, Stays};
    ghost use Rattle.nmvs_rehearsal.specs.Rehearsal.{Takes};

    type List = Following<GatheredEntries<&'a Global>>;

    ghost takes = { λ old from ask withheld new. Takes old ask withheld new };

    ghost releases = { AtOnce };

    ghost moves = { Stays };

    /// Each peer may name any user.
    fn take(
        &mut self,
        _from: &Peer,
        ask: &Ask,
    ) -> (Withheld, Option<Following<GatheredEntries<&'a Global>>>) {
        let moment = self.next_moment();
        let (content, list) = match &ask.asked {
            Asked::Question(user, question) => {
                self.judge(moment, user, ask.tag, question, &None)
            }
            Asked::Conditional(user, kind, pack, printed) => {
                let question = Question::OfPack(*kind, *pack);
                self.judge(moment, user, ask.tag, &question, &Some(*printed))
            }
            Asked::Report(user, code) => self.report(user, code, ask.tag),
        };
        (Withheld::new(content), list)
    }

    fn release<'h>(&mut self, withheld: &'h mut WithheldAnswers) -> Released<'h> {
        withheld.release()
    }

    fn fetch(&self, list: &mut Following<GatheredEntries<&'a Global>>, piece: &mut Piece) {
        match list {
            Following::Entries(entries) => entries.fetch(piece),
            Following::Batches(batches) => batches.fetch(piece),
        }
    }
}
