//! The handover of a pack that was decommissioned for supply earlier (own, after Article 25).
ghost use Rattle.std.specs.Prelude.{◌≡◌};
ghost use Rattle.nmvs_rules.specs.Rules.{handover_reply};

use crate::reversion::is_same_house;
use crate::{Actor, BatchLock, Known, OwnStatus, Refusal, Reply};

/// The reply to the handover of a known pack, an expired one too.
pub(crate) fn handover_reply(actor: &Actor, known: &Known, lock: BatchLock) -> Reply
    ensures { result ≡ handover_reply actor.now known.now lock }
{
    if !matches!(lock, BatchLock::Free) {
        return Reply::Refused(Refusal::Locked);
    }
    if !matches!(known.own, OwnStatus::Held) {
        return Reply::Refused(Refusal::NotHeld);
    }
    if !is_same_house(actor, &known.mark) {
        return Reply::Refused(Refusal::Other);
    }
    Reply::HandedOver
}
