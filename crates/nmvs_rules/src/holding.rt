//! The operations of a product code's holder: uploads, recalls, withdrawals and theft reports (Articles 33 and 40).
ghost use Rattle.std.specs.Prelude.{◌≡◌, is_some};
ghost use Rattle.nmvs_rules.specs.Rules.{upload_reply, lock_reply, theft_reply, is_held_by, has_other_holder};
ghost use Rattle.nmvs_rules.specs.Facts.{lock_in, active_in};

use crate::{Actor, BatchLock, Facts, Known, OwnStatus, Refusal, Reply};
use nmvs_identifier::Name;

/// The reply to an upload.
pub(crate) fn upload_reply(actor: &Actor, facts: &Facts) -> Reply
    ensures { result ≡ upload_reply actor.now facts.now.holder facts.now.pack }
{
    if has_other_holder(facts.holder, &actor.authorisation) {
        return Reply::Refused(Refusal::NotHolder);
    }
    if facts.pack.is_some() {
        return Reply::Refused(Refusal::Duplicate);
    }
    Reply::Uploaded
}

/// The reply to a recall or a withdrawal.
pub(crate) fn lock_reply(actor: &Actor, facts: &Facts) -> Reply
    ensures { result ≡ lock_reply actor.now (is_some facts.now.batch) facts.now.holder
        (lock_in facts.now.batch) (active_in facts.now.batch) }
{
    let Some(batch) = &facts.batch else {
        return Reply::Refused(Refusal::UnknownBatch);
    };
    if !is_held_by(facts.holder, &actor.authorisation) {
        return Reply::Refused(Refusal::NotHolder);
    }
    if !matches!(batch.lock, BatchLock::Free) {
        return Reply::Refused(Refusal::Already);
    }
    Reply::LockedNow(batch.counts.active)
}

/// The reply to a report that a known pack was stolen.
pub(crate) fn theft_reply(actor: &Actor, holder: Option<Name>, known: &Known) -> Reply
    ensures { result ≡ theft_reply actor.now holder known.now }
{
    if !is_held_by(holder, &actor.authorisation) {
        return Reply::Refused(Refusal::NotHolder);
    }
    if matches!(known.own, OwnStatus::Stolen) {
        return Reply::Refused(Refusal::Already);
    }
    Reply::MarkedStolen
}

fn is_held_by(holder: Option<Name>, authorisation: &Name) -> bool
    ensures { result ≡ is_held_by holder authorisation.now }
{
    holder.is_some_and(|holder| holder == *authorisation)
}

fn has_other_holder(holder: Option<Name>, authorisation: &Name) -> bool
    ensures { result ≡ has_other_holder holder authorisation.now }
{
    holder.is_some_and(|holder| holder != *authorisation)
}
