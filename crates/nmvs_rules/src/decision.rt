//! The reply that the rules give.
ghost use Rattle.std.specs.Prelude.{◌≡◌, ◌+◌, ◌<◌, ◌^◌, List};
ghost use Rattle.nmvs_rules.specs.declared.entry.Entry.{Entry};
ghost use Rattle.nmvs_rules.specs.declared.put.Put.{Put};
ghost use Rattle.nmvs_rules.specs.Rules.{reply_of};
ghost use Rattle.nmvs_rules.specs.Facts.{facts_of, reply_by_facts, admitted_reply_by_facts, lock_in};

use crate::alerting::alert_unknown;
use crate::circulation::{decommission_reply, status_reply, verify_reply};
use crate::handing_over::handover_reply;
use crate::holding::{lock_reply, theft_reply, upload_reply};
use crate::reversion::revert_reply;
use crate::{BatchLock, BatchRecord, Facts, PackQuestion, Put, Question, Refusal, Reply, may};

/// The reply of the rules to a question as it is put (Articles 11 to 13, 22, 25, 35, 36 and 40). It rests on these
/// facts alone.
///
/// The first condition on the question that fails decides. A refusal is a reply, and so is an alert. The user's name
/// plays no part in it.
pub fn decide(facts: &Facts, put: &Put) -> Reply
    requires { facts.now.alerts + 1 < 2 ^ 64 }
    ensures by_facts { result ≡ reply_by_facts facts.now put.now }

    // It is the reply on every trail that has these facts.
    ensures by_trail { (t : List Entry) →
        facts_of t put.now.question ≡ facts.now → result ≡ reply_of t put.now }
{
    if !may(put.actor.role, &put.question) {
        return Reply::Refused(Refusal::Role);
    }
    admitted_reply(facts, put)
}

fn admitted_reply(facts: &Facts, put: &Put) -> Reply
    requires { facts.now.alerts + 1 < 2 ^ 64 }
    ensures { result ≡
        admitted_reply_by_facts facts.now put.now.moment put.now.actor put.now.question }
{
    let lock = lock_in(&facts.batch);
    let actor = &put.actor;
    let asked = match &put.question {
        Question::Upload { .. } => return upload_reply(actor, facts),
        Question::OfBatch(_, _, _) => return lock_reply(actor, facts),
        Question::OfPack(asked, _) => asked,
    };
    match (asked, &facts.pack) {
        (PackQuestion::Verify, Some(known)) => verify_reply(put.moment, known, lock, facts.alerts),
        (PackQuestion::Verify | PackQuestion::Decommission(_), None) => alert_unknown(facts.alerts),
        (PackQuestion::Status, Some(known)) => status_reply(known, lock),
        (PackQuestion::Status, None) => Reply::NoPack,
        (PackQuestion::Decommission(_), Some(known)) => {
            decommission_reply(known, lock, facts.alerts)
        }
        (PackQuestion::Handover, Some(known)) => handover_reply(actor, known, lock),
        (PackQuestion::Revert, Some(known)) => revert_reply(put.moment, actor, known, lock),
        (PackQuestion::Theft, Some(known)) => theft_reply(actor, facts.holder, known),
        (PackQuestion::Handover | PackQuestion::Revert | PackQuestion::Theft, None) => {
            Reply::Refused(Refusal::Unknown)
        }
        (PackQuestion::Audit, _) => Reply::Shown(facts.about),
    }
}

fn lock_in(batch: &Option<BatchRecord>) -> BatchLock
    ensures { result ≡ lock_in batch.now }
{
    batch.map_or(BatchLock::Free, |batch| batch.lock)
}
