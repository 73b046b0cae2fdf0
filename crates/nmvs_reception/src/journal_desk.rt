//! The program's desk with a log that answers wait for.
ghost use Rattle.std.specs.Prelude.{◌≡◌, ◌<◌, ◌&&◌, ◌||◌, List, length, IfSome};
ghost use Rattle.nmvs_rules.specs.declared.entry.Entry.{Entry};
ghost use Rattle.nmvs_desk.specs.Settlement.{row};
ghost use Rattle.nmvs_journal.specs.Told.{IsWithin};
ghost use Rattle.nmvs_reception.specs.Desk.{is_report};

use crate::{ClerkDesk, Clock};
use log::Log;
use nmvs_desk::{Clerk, Shown};
use nmvs_directory::Naming;
use nmvs_history::Histories;
use nmvs_journal::{CommitLog, Confirmed, LogName, Reach};
use nmvs_messages::{Ask, Asked, Basis, Desk, Peer, Piece, Released, Withheld, WithheldAnswers};
use nmvs_reports::Following;
use nmvs_store::Store;
use std::marker::Model;
use std::rt;
use std::sync::Wait;

/// Answers lines as a clerk's desk does. It releases an answer once the log of the repository has confirmed the entries on
/// which it rests. Then the clerk's receipts go (own).
///
/// Contracts see the clerk's desk, and the trail that this desk knows to be confirmed.
#[derive(Drop)]
pub struct JournalDesk<
    'r,
    'v,
    'f,
    'a,
    R: Wait,
    J: Naming,
    H: Histories,
    K: Clock,
    D: Store,
    L: LogName,
> {
    desk: ClerkDesk<'r, 'a, R, J, H, K>,
    log: &'v CommitLog<'f, 'a, D, H, L>,
    reach: Reach,
    confirmed: Confirmed<L>,
}

impl<'r, 'v, 'f, 'a, R: Wait, J: Naming, H: Histories, K: Clock, D: Store, L: LogName> Model
    for JournalDesk<'r, 'v, 'f, 'a, R, J, H, K, D, L> {
    ghost use Rattle.nmvs_journal.specs.Told.{IsWithin};
    ghost use Rattle.nmvs_reception.specs.Desk.{WaitingView};

    ghost Value = { WaitingView };

    ghost view = { λ d. record { desk = d.desk; confirmed = d.confirmed } };

    ghost invariant = { λ d. IsWithin d.reach d.desk.clerk.sights };
}

impl<
    'r,
    'v,
    'f,
    'a,
    R: Wait + rt::Clock + Log,
    J: Naming,
    H: Histories,
    K: Clock,
    D: Store + Drop,
    L: LogName,
> JournalDesk<'r, 'v, 'f, 'a, R, J, H, K, D, L> {
    /// A desk over a clerk's desk, the log of its repository, and the confirmed trail.
    pub fn new(
        desk: ClerkDesk<'r, 'a, R, J, H, K>,
        log: &'v CommitLog<'f, 'a, D, H, L>,
        confirmed: Confirmed<L>,
    ) -> JournalDesk<'r, 'v, 'f, 'a, R, J, H, K, D, L>
        ensures { result ≡ record { desk = desk.entry; confirmed = confirmed } }
    {
        JournalDesk {
            desk,
            log,
            reach: Reach::none(),
            confirmed,
        }
    }

    /// The clerk, with the receipts of the answers that are not released.
    pub fn into_clerk(self) -> Clerk<'a, J, H>
    where
        K: Drop,
        ensures { result ≡ self.entry.desk.clerk }
    {
        self.desk.into_clerk()
    }
}

impl<
    'r,
    'v,
    'f,
    'a,
    R: Wait + rt::Clock + Log,
    J: Naming,
    H: Histories,
    K: Clock,
    D: Store + Drop,
    L: LogName,
> Desk for JournalDesk<'r, 'v, 'f, 'a, R, J, H, K, D, L> {
    ghost use Rattle.nmvs_journal.specs.Told.{IsTold};
    ghost use Rattle.nmvs_reception.specs.Desk.{LearnsMore, TakesWaiting};

    type List = Following<Shown<H>>;

    ghost takes = { TakesWaiting };

    ghost releases = { λ old new withheld said. IsTold H.shards new.confirmed old.desk.clerk.sights withheld said };

    ghost moves = { LearnsMore };

    fn take(&mut self, from: &Peer, ask: &Ask) -> (Withheld, Option<Following<Shown<H>>>) {
        let (answer, basis, list) = self.desk.answer(from, ask);
        let waits = waits_anew(self.log.is_shared(), ask);
        note_answer(&mut self.reach, basis, waits);
        (Withheld::resting_on(basis, answer), list)
    }

    /// It waits for the shard of the entries.
    fn fetch(&self, list: &mut Following<Shown<H>>, piece: &mut Piece) {
        self.desk.fetch(list, piece);
    }

    fn release<'h>(&mut self, withheld: &'h mut WithheldAnswers) -> Released<'h> {
        self.desk
            .release_by(self.log, &mut self.reach, &mut self.confirmed, withheld)
    }
}

/// Whether the answer waits for a block of the log that begins after it: a report, if others watch the log. It leaves no entry, so
/// a server that lost the log would not see it otherwise.
fn waits_anew(is_shared: bool, ask: &Ask) -> bool
    ensures { result ≡ (is_shared && is_report ask.now.asked) }
{
    match ask.asked {
        Asked::Report(..) => is_shared,
        _ => false,
    }
}

/// Notes the basis of one more answer, and whether it waits for a block that begins after it.
fn note_answer(reach: &mut Reach, basis: Option<Basis>, waits: bool)
    ensures within { (sights : List (List Entry)) → IsWithin reach.old sights
        → IfSome basis (λ b. b.place < length (row sights b.shard)) → IsWithin reach.new sights }
    ensures anew { reach.new.is_anew ≡ (waits || reach.old.is_anew) }
{
    reach.note(basis);
    if waits {
        reach.note_anew();
    }
}
