//! The program's desk.
ghost use Rattle.std.specs.Prelude.{◌≡◌, ◌⊎◌, ◌++◌, List, Some, codes, true, length, string_bytes, IfSome};
ghost use Rattle.std.specs.Option.{is_some};
ghost use Rattle.nmvs_messages.specs.declared.answer.Content.TheVariants.{Reported};
ghost use Rattle.nmvs_messages.specs.declared.answer.Turn.TheVariants as turns;
ghost use Rattle.nmvs_messages.specs.Tags.{tag_text};
ghost use Rattle.nmvs_reports.specs.Report.{record_lines};
ghost use Rattle.nmvs_messages.specs.Withheld.{content_shown, entries_left, text_left};
ghost use Rattle.nmvs_rules.specs.declared.entry.Entry.{Entry as TheEntry};
ghost use Rattle.nmvs_reception.specs.Desk.{at_moment, may_ask_this, may_upload_this, not_put_turn as turn_of_not_put, suspended_turn as turn_of_suspended, RestsOn, Says};
ghost use Rattle.nmvs_line.specs.Export.{export_text};
ghost use Rattle.nmvs_reports.specs.Following.{following_text};

use crate::latest_notice::LatestNotice;
use crate::{Alerts, Clock};
use log::Log;
use nmvs_desk::{Clerk, Reader, Repository, Shown};
use nmvs_directory::{Look, Naming, Notice};
use nmvs_history::Histories;
use nmvs_identifier::{Batch, Moment, Name, ProductCode, Tag};
use nmvs_journal::{CommitLog, Confirmed, LogName, Reach};
use nmvs_messages::{
    Ask, Asked, Basis, Content, Desk, Peer, Piece, Released, ShownText, Text, Turn, Withheld,
    WithheldAnswers,
};
use nmvs_metrics::WorkerMetrics;
use nmvs_rate::SharedLimiter;
use nmvs_reports::{Following, ReportList, batches, product_line};
use nmvs_rules::{Actor, BatchRecord, Enrolment, Printed, Put, Question, Reply, Role, may_report};
use nmvs_shard::{Answered, NotPut, Outcome, Shard};
use nmvs_store::Store;
use std::alloc::{AllocError, Global};
use std::marker::Model;
use std::rt;
use std::sync::{Mutex, Wait};

/// Answers lines by a clerk of a repository, at the moments of a clock, which it asks once a line. At each moment it reads the
/// latest notice, and its clerk learns it before the line's user is looked up (own).
#[derive(Drop)]
pub struct ClerkDesk<'r, 'a, R: Wait, J: Naming, H: Histories, K: Clock> {
    rt: &'r R,
    clerk: Clerk<'a, J, H>,
    repository: &'r Repository<'a, H>,
    latest: LatestNotice<'r, J>,
    limiter: Option<&'r SharedLimiter<Global>>,
    clock: K,
    metrics: WorkerMetrics<'r>,
    alerts: &'r Alerts,
}

impl<'r, 'a, R: Wait, J: Naming, H: Histories, K: Clock> Model for ClerkDesk<'r, 'a, R, J, H, K> {
    ghost use Rattle.std.specs.Option.{is_some};
    ghost use Rattle.std.specs.Prelude.{length};
    ghost use Rattle.nmvs_reception.specs.Desk.{DeskView};

    ghost Value = { DeskView };

    ghost view = { λ d. record {
      clerk = d.clerk;
      shards = d.repository.now.shards;
      rated = is_some d.limiter;
      asked = K.asked d.clock;
      gave = K.gave d.clock;
      reads = length d.latest.reads.numbers;
      notice = d.latest.last;
    } };
}

impl<'r, 'a, R: Wait + rt::Clock + Log, J: Naming, H: Histories, K: Clock> ClerkDesk<
    'r,
    'a,
    R,
    J,
    H,
    K,
> {
    ghost use Rattle.std.specs.Prelude.{◌≡◌, IfOk, IfErr, string_bytes};
    ghost use Rattle.std.specs.Option.{is_some};
    ghost use Rattle.nmvs_desk.specs.Placing.{shard_of};
    ghost use Rattle.nmvs_desk.specs.Settlement.{row};
    ghost use Rattle.nmvs_reports.specs.Report.{product_line, report_batches};
    ghost use Rattle.nmvs_reception.specs.Desk.{Admits, AnswersAdmitted, AnswersQuestion, AnswersReport, Refuses, RestsOn, SeesShard, Serves};

    /// A desk over a clerk of this repository, the lock of the latest notice, and the limiter of the users' rate, if they have
    /// one. The metrics count its answers, and its flagged alerts are noted. It waits for the notice's lock.
    ///
    /// Condition: `open` gave the clerk with the repository, which the names of their histories say.
    pub fn new(
        rt: &'r R,
        clerk: Clerk<'a, J, H>,
        repository: &'r Repository<'a, H>,
        latest: &'r Mutex<Notice<J>>,
        limiter: Option<&'r SharedLimiter<Global>>,
        clock: K,
        metrics: WorkerMetrics<'r>,
        alerts: &'r Alerts,
    ) -> ClerkDesk<'r, 'a, R, J, H, K>
        ensures { result ≡ record { clerk = clerk.entry; shards = repository.now.shards; rated = is_some limiter.entry; asked = K.asked clock; gave = K.gave clock; reads = 0; notice = result.notice } }
    {
        ClerkDesk {
            rt,
            clerk,
            repository,
            latest: LatestNotice::under(rt, latest),
            limiter,
            clock,
            metrics,
            alerts,
        }
    }

    /// The clerk, with all its receipts.
    pub fn into_clerk(self) -> Clerk<'a, J, H>
    where
        K: Drop,
        ensures { result ≡ self.entry.clerk }
    {
        self.clerk
    }

    /// The answer to a line of this peer, its basis, and the list of the lines that follow it. It waits for the notice's lock,
    /// and lets it go.
    pub(crate) fn answer(
        &mut self,
        from: &Peer,
        ask: &Ask,
    ) -> (Content, Option<Basis>, Option<Following<Shown<H>>>)
        ensures serves { Serves self.old from.now ask.now result.0 result.1 self.new }
        ensures shows { content_shown result.0 ≡ text_left (following_text export_text) result.2 }
    {
        self.metrics.note_line();
        match self.admit(from, ask) {
            Ok((moment, actor)) => self.answer_admitted(moment, actor, ask),
            Err(turn) => (Content::Turned(turn), None, None),
        }
    }

    /// Admits a line, or gives the reason to turn it away. The reasons come in this order. The clock gives no moment.
    /// The directory does not know the user, or cannot be read. The user is looked up once, after the clerk has learnt
    /// the latest notice; this waits for the notice's lock. The peer may not speak for the user. The user is suspended,
    /// or its last day is over. The line is over the user's rate, or there is no memory to count it; this waits for the
    /// limiter's lock. The user's role gets no report. The product of an upload is none of those that the user may
    /// upload.
    fn admit(&mut self, from: &Peer, ask: &Ask) -> Result<(Moment, Actor), Turn>
        ensures admits { IfOk result (λ r. Admits self.old from.now ask.now r.0 r.1 self.new) }
        ensures refuses { IfErr result (λ turn. Refuses self.old from.now ask.now turn self.new) }
    {
        let Some(moment) = Moment::new(self.clock.seconds()) else {
            return Err(Turn::Clock);
        };
        self.latest.read(self.rt);
        self.clerk.learn(&self.latest.last);
        let user = ask.user();
        let enrolment = match at_moment(moment, self.clerk.look(user)) {
            Look::Known(enrolment) => enrolment,
            Look::Nobody => return Err(Turn::Nobody),
            Look::Suspended => return Err(suspended_turn(from, user)),
            Look::Closed => return Err(Turn::Closed),
        };
        if !from.speaks_for(user, &enrolment.actor.authorisation) {
            return Err(Turn::Nobody);
        }
        if let Some(turn) = turn_by_rate(self.rt, self.limiter, user) {
            return Err(turn);
        }
        if !may_ask_this(&ask.asked, enrolment.actor.role) {
            return Err(Turn::Role);
        }
        if !may_upload_this(&ask.asked, &enrolment) {
            return Err(Turn::Product);
        }
        Ok((moment, enrolment.actor))
    }

    /// The answer to an admitted line, its basis, and the list of the lines that follow it.
    fn answer_admitted(
        &mut self,
        moment: Moment,
        actor: Actor,
        ask: &Ask,
    ) -> (Content, Option<Basis>, Option<Following<Shown<H>>>)
        ensures answers { AnswersAdmitted self.old ask.now.tag ask.now.asked moment actor result.0 result.1 self.new }
        ensures shows { content_shown result.0 ≡ text_left (following_text export_text) result.2 }
    {
        match &ask.asked {
            Asked::Question(user, question) => {
                let put = put_at(moment, user, actor, *question, ask.tag);
                self.ask(&put, &None)
            }
            Asked::Conditional(user, kind, pack, printed) => {
                let question = Question::OfPack(*kind, *pack);
                let put = put_at(moment, user, actor, question, ask.tag);
                self.ask_conditional(&put, printed)
            }
            Asked::Report(_, code) => self.report(code, ask.tag),
        }
    }

    /// Asks a question by the clerk, and counts it if it was put.
    fn ask(
        &mut self,
        put: &Put,
        printed: &Option<Printed>,
    ) -> (Content, Option<Basis>, Option<Following<Shown<H>>>)
        ensures answers { AnswersQuestion self.old put.now printed.now result.0 result.1 self.new }
        ensures shows { content_shown result.0 ≡ text_left (following_text export_text) result.2 }
    {
        let (rt, repository) = (self.rt, self.repository);
        let shard = repository.shard_of(&put.question.code());
        match self.clerk.ask_in(rt, repository, shard, put, printed) {
            Ok((outcome, list)) => {
                note_put(rt, &self.metrics, self.alerts, shard, put, &outcome);
                answer_by(shard, outcome, list)
            }
            Err(AllocError) => (Content::Turned(Turn::Memory), None, None),
        }
    }

    /// Asks a question as `ask`, if its pack was not uploaded with other values than these printed ones. It stands apart, as
    /// `report`, from the path of a plain question, whose frame stays small.
    #[inline(never)]
    fn ask_conditional(
        &mut self,
        put: &Put,
        printed: &Printed,
    ) -> (Content, Option<Basis>, Option<Following<Shown<H>>>)
        ensures answers { AnswersQuestion self.old put.now (Some printed.now) result.0 result.1 self.new }
        ensures shows { content_shown result.0 ≡ text_left (following_text export_text) result.2 }
    {
        self.ask(put, &Some(*printed))
    }

    /// Reports on a product code, to a line with this tag, if it has one. It waits for the code's shard, and nothing is recorded.
    #[inline(never)]
    fn report(
        &mut self,
        code: &ProductCode,
        tag: Option<Tag>,
    ) -> (Content, Option<Basis>, Option<Following<Shown<H>>>)
        ensures answers { AnswersReport self.old tag code.now result.0 result.1 self.new }
        ensures shows { content_shown result.0 ≡ text_left (following_text export_text) result.2 }
    {
        match self.report_on(code) {
            Ok((first, batches, basis)) => {
                self.metrics.note_report();
                let (content, list) = reported(first, batches, tag);
                (content, basis, list)
            }
            Err(AllocError) => (Content::Turned(Turn::Memory), None, None),
        }
    }

    /// The first line of the report of a product code, and its batches, by its shard. They rest on all of the shard's trail.
    fn report_on(
        &mut self,
        code: &ProductCode,
    ) -> Result<(String, Batches, Option<Basis>), AllocError>
        ensures sees { SeesShard self.old (shard_of self.old.shards code.now) self.new }
        ensures first { IfOk result (λ r. string_bytes r.0 ≡ product_line (row self.new.clerk.sights (shard_of self.old.shards code.now)) code.now) }
        ensures batches { IfOk result (λ r. r.1.items ≡ report_batches (row self.new.clerk.sights (shard_of self.old.shards code.now)) code.now) }
        ensures rests { IfOk result (λ r. RestsOn (shard_of self.old.shards code.now) (length (row self.new.clerk.sights (shard_of self.old.shards code.now))) r.2) }
    {
        let (rt, repository) = (self.rt, self.repository);
        let alloc = *self.clerk.allocator();
        let shard = repository.shard_of(code);
        let reader = ReportOf { alloc, code };
        let (first, batches, count) = self.clerk.look_at(rt, repository, shard, reader)?;
        Ok((first, batches, basis_of(shard, count)))
    }
}

impl<'r, 'a, R: Wait + rt::Clock + Log, J: Naming, H: Histories, K: Clock> ClerkDesk<
    'r,
    'a,
    R,
    J,
    H,
    K,
> {
    ghost use Rattle.nmvs_messages.specs.Withheld.{AreReleased};
    ghost use mathlib.Core.List.{IsPrefix};
    ghost use Rattle.nmvs_journal.specs.Told.{IsTold, IsWithin};
    ghost use Rattle.nmvs_reception.specs.Desk.{LetsGo};

    /// Releases answers by the log of the repository, once it has confirmed the entries on which they rest.
    pub(crate) fn release_by<'h, D: Store + Drop, L: LogName>(
        &mut self,
        log: &CommitLog<'_, 'a, D, H, L>,
        reach: &mut Reach,
        confirmed: &mut Confirmed<L>,
        withheld: &'h mut WithheldAnswers,
    ) -> Released<'h>
        ensures reach { (sights : List (List TheEntry)) → IsWithin reach.new sights }
        ensures released { AreReleased (IsTold H.shards confirmed.new self.old.clerk.sights) withheld.old result }
        ensures longer { IsPrefix confirmed.old confirmed.new }
        ensures moves { LetsGo self.old self.new }
    {
        let (released, counts) = log.release(self.rt, &mut self.clerk, reach, confirmed, withheld);
        note_confirmed(&self.metrics, &counts);
        self.metrics.note_release();
        released
    }
}

/// The directory's answer at a moment: a user whose enrolment has ended stands as one who is suspended.
fn at_moment(moment: Moment, said: Look) -> Look
    ensures { result ≡ at_moment moment said }
{
    match said {
        Look::Known(enrolment) if enrolment.has_ended(moment) => Look::Suspended,
        Look::Known(_) | Look::Nobody | Look::Suspended | Look::Closed => said,
    }
}

/// The turn for a line of this peer that names a user who is suspended: to a certificate of another name the user is
/// nobody. So it is to each certificate that names an authorisation, since the directory gives none of a suspended
/// user.
fn suspended_turn(from: &Peer, user: &Name) -> Turn
    ensures { result ≡ turn_of_suspended from.now user.now }
{
    match from {
        Peer::Anyone => Turn::Suspended,
        Peer::User(own) => {
            if user == own {
                Turn::Suspended
            } else {
                Turn::Nobody
            }
        }
        Peer::Authorisation(_) => Turn::Nobody,
    }
}

/// The rate's turn for a line of this user, or `None` if there is none. Each line passes if there is no limiter. It waits for
/// the limiter's lock.
fn turn_by_rate<R: Wait + rt::Clock>(
    rt: &R,
    limiter: Option<&SharedLimiter<Global>>,
    user: &Name,
) -> Option<Turn>
    ensures { IfSome result (λ turn. (is_some limiter.entry ≡ true) × ((turn ≡ turns.Rate) ⊎ (turn ≡ turns.Memory))) }
{
    match nmvs_rate::admit(rt, limiter, user) {
        Ok(true) => None,
        Ok(false) => Some(Turn::Rate),
        Err(AllocError) => Some(Turn::Memory),
    }
}

/// Whether a user with this role may ask this. Each may put a question, since a refusal is a reply.
fn may_ask_this(asked: &Asked, role: Role) -> bool
    ensures { result ≡ may_ask_this asked.now role }
{
    match asked {
        Asked::Question(..) | Asked::Conditional(..) => true,
        Asked::Report(..) => may_report(role),
    }
}

/// Whether a user with this enrolment may ask this, since it uploads no product that the enrolment does not name.
fn may_upload_this(asked: &Asked, enrolment: &Enrolment) -> bool
    ensures { result ≡ may_upload_this asked.now enrolment.now }
{
    match asked {
        Asked::Question(_, Question::Upload { pack, .. }) => enrolment.may_upload(&pack.code),
        Asked::Question(..) | Asked::Conditional(..) | Asked::Report(..) => true,
    }
}

/// A question of a user in this capacity, as it is put at the moment with the tag of its line.
fn put_at(moment: Moment, user: &Name, actor: Actor, question: Question, tag: Option<Tag>) -> Put
    ensures { result ≡ record { moment = moment; user = user.now; actor = actor; question = question; tag = tag } }
{
    Put {
        moment,
        user: *user,
        actor,
        question,
        tag,
    }
}

/// The batches of a product code with their records.
type Batches = Vec<(Batch, BatchRecord)>;

/// The report with this first line and these batches, and the list of its other lines. The line that asked has this
/// tag, if it has one.
fn reported<H: Histories>(
    first: String,
    batches: Batches,
    tag: Option<Tag>,
) -> (Content, Option<Following<Shown<H>>>)
    ensures content { result.0 ≡ Reported (string_bytes first) (record_lines (tag_text tag) batches.items ++ (tag_text tag ++ codes "END\n")) }
    ensures shows { content_shown result.0 ≡ text_left (following_text export_text) result.1 }
{
    let list = Some(Following::Batches(ReportList::new(tag, batches)));
    let shown = ShownText::of(&list);
    (Content::Reported(Text::new(first), shown), list)
}

/// The answer to an outcome in the shard of this number, its basis, and the list of the entries that it shows.
fn answer_by<H: Histories>(
    shard: usize,
    outcome: Outcome,
    list: Option<Shown<H>>,
) -> (Content, Option<Basis>, Option<Following<Shown<H>>>)
    ensures says { Says shard outcome (entries_left (λ s. s) list) result.0 result.1 }
    ensures shows { content_shown result.0 ≡ text_left (following_text export_text) result.2 }
{
    match outcome {
        Outcome::New(Answered { place, reply, .. })
        | Outcome::Again(Answered { place, reply, .. }) => {
            let list = Following::of_entries(list);
            let content = Content::Replied(reply, ShownText::of(&list));
            (content, Some(Basis { shard, place }), list)
        }
        Outcome::NotPut(why, entries) => {
            let turn = Content::Turned(not_put_turn(why));
            (turn, basis_of(shard, entries), None)
        }
    }
}

/// The reason to turn away a question that was not put.
fn not_put_turn(why: NotPut) -> Turn
    ensures { result ≡ turn_of_not_put why }
{
    match why {
        NotPut::Other => Turn::Tag,
        NotPut::Differs => Turn::Differs,
        NotPut::Changed => Turn::Changed,
    }
}

/// Counts a question that was put, and notes an alert that is flagged as a potential falsification, or printed values that
/// differ.
fn note_put<R: Wait + Log>(
    rt: &R,
    metrics: &WorkerMetrics<'_>,
    alerts: &Alerts,
    shard: usize,
    put: &Put,
    outcome: &Outcome,
) {
    let answered = match outcome {
        Outcome::New(answered) => answered,
        Outcome::NotPut(NotPut::Differs, _) => return alerts.note_mismatch(rt, put),
        Outcome::Again(_) | Outcome::NotPut(..) => return,
    };
    metrics.note_put(shard, &put.question, &answered.reply);
    if let Reply::Alert {
        cause,
        flagged: true,
        number,
    } = &answered.reply
    {
        alerts.note(rt, put, *cause, *number);
    }
}

/// Counts the confirmed entries of each shard that was waited for.
fn note_confirmed(metrics: &WorkerMetrics<'_>, counts: &[usize]) {
    for (shard, count) in counts.iter().enumerate() {
        if *count > 0 {
            metrics.note_confirmed(shard, *count as u64);
        }
    }
}

/// The basis of an answer that rests on a trail with this number of entries.
fn basis_of(shard: usize, count: usize) -> Option<Basis>
    ensures { RestsOn shard count result }
{
    if count == 0 {
        return None;
    }
    Some(Basis {
        shard,
        place: count - 1,
    })
}

/// Reads the report of a product code from a shard that is held. It has its first line, its batches, and the number of
/// entries of the trail.
#[derive(Clone, Copy)]
struct ReportOf<'c> {
    alloc: Global,
    code: &'c ProductCode,
}

impl<'a, 'c> Reader<Shard<&'a Global>> for ReportOf<'c> {
    type Output = Result<(String, Batches, usize), AllocError>;

    ghost use Rattle.std.specs.Prelude.{◌≡◌, IfOk, length, string_bytes};
    ghost use Rattle.nmvs_reports.specs.Report.{product_line, report_batches};

    ghost tells = { λ r t result. IfOk result (λ made.
        (string_bytes made.0 ≡ product_line t r.code.now) × (made.1.items ≡ report_batches t r.code.now) × (length t ≡ made.2)) };

    fn read(self, shard: &Shard<&'a Global>) -> Result<(String, Batches, usize), AllocError> {
        let batches = batches(self.alloc, shard.tables(), self.code)?;
        let first = product_line(self.alloc, shard, self.code)?;
        Ok((first, batches, shard.len()))
    }
}

impl<'r, 'a, R: Wait + rt::Clock + Log, J: Naming, H: Histories, K: Clock> Desk
    for ClerkDesk<'r, 'a, R, J, H, K> {
    ghost use Rattle.nmvs_messages.specs.Withheld.{AtOnce, Stays};
    ghost use Rattle.nmvs_reception.specs.Desk.{Takes};

    type List = Following<Shown<H>>;

    ghost takes = { Takes };

    ghost releases = { AtOnce };

    ghost moves = { Stays };

    fn take(&mut self, from: &Peer, ask: &Ask) -> (Withheld, Option<Following<Shown<H>>>) {
        let (content, basis, list) = self.answer(from, ask);
        (Withheld::resting_on(basis, content), list)
    }

    fn release<'h>(&mut self, withheld: &'h mut WithheldAnswers) -> Released<'h> {
        self.metrics.note_release();
        withheld.release()
    }

    /// It waits for the shard of the entries.
    fn fetch(&self, list: &mut Following<Shown<H>>, piece: &mut Piece) {
        match list {
            Following::Entries(shown) => self.repository.fetch(self.rt, shown, piece),
            Following::Batches(batches) => batches.fetch(piece),
        }
    }
}
