//! Reverting a decommissioned pack to active (Article 13).
ghost use Rattle.std.specs.Prelude.{◌≡◌};
ghost use Rattle.nmvs_rules.specs.Rules.{revert_reply, is_same_house, is_within};

use crate::circulation::is_past;
use crate::{Actor, BatchLock, Known, Mark, OwnStatus, Refusal, Reply};
use nmvs_identifier::Moment;

/// The days after a decommissioning within which it may be reverted (Article 13(1)(b)).
const REVERSION_DAYS: u16 = 10;

/// The reply to a reversion of a known pack.
pub(crate) fn revert_reply(moment: Moment, actor: &Actor, known: &Known, lock: BatchLock) -> Reply
    ensures { result ≡ revert_reply moment actor.now known.now lock }
{
    if !matches!(lock, BatchLock::Free) {
        return Reply::Refused(Refusal::Locked);
    }
    match known.own {
        OwnStatus::Active => return Reply::Refused(Refusal::StillActive),
        OwnStatus::Stolen => return Reply::Refused(Refusal::IsStolen),
        OwnStatus::Destroyed => return Reply::Refused(Refusal::IsDestroyed),
        OwnStatus::Supplied => return Reply::Refused(Refusal::WasSupplied),
        OwnStatus::Held | OwnStatus::Exported | OwnStatus::Sampled => {}
    }
    if !is_same_house(actor, &known.mark) {
        return Reply::Refused(Refusal::Other);
    }
    if !is_in_time(moment, &known.mark) {
        return Reply::Refused(Refusal::Late);
    }
    if is_past(&known.expiry, moment) {
        return Reply::Refused(Refusal::Expired);
    }
    Reply::Reverted
}

/// Whether the actor is of the mark's house: covered by the same authorisation, and in the same premises.
pub(crate) fn is_same_house(actor: &Actor, mark: &Mark) -> bool
    ensures { result ≡ is_same_house actor.now mark.now }
{
    actor.authorisation == mark.authorisation && actor.premises == mark.premises
}

fn is_in_time(moment: Moment, mark: &Mark) -> bool
    ensures { result ≡ is_within REVERSION_DAYS moment mark.now }
{
    moment.day() - mark.moment.day() <= i32::from(REVERSION_DAYS)
}
