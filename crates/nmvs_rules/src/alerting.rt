//! Alerts if authenticity is not confirmed (Article 36).
ghost use Rattle.std.specs.Prelude.{◌≡◌, ◌+◌, ◌<◌, ◌^◌};
ghost use Rattle.nmvs_rules.specs.Rules.{alert_on, alert_unknown, cause_of, is_flagged};

use crate::{BatchLock, Cause, Known, OwnStatus, Reply};

/// The alert on a known pack, after `alerts` earlier ones on its product code.
pub(crate) fn alert_on(known: &Known, lock: BatchLock, alerts: u64) -> Reply
    requires { alerts + 1 < 2 ^ 64 }
    ensures { result ≡ alert_on known.now lock alerts }
{
    Reply::Alert {
        cause: cause_of(known.own, lock),
        flagged: is_flagged(known.own, lock),
        number: alerts + 1,
    }
}

/// The alert on an unknown pack, after `alerts` earlier ones on its product code.
pub(crate) fn alert_unknown(alerts: u64) -> Reply
    requires { alerts + 1 < 2 ^ 64 }
    ensures { result ≡ alert_unknown alerts }
{
    Reply::Alert {
        cause: Cause::Unknown,
        flagged: true,
        number: alerts + 1,
    }
}

fn cause_of(own: OwnStatus, lock: BatchLock) -> Cause
    ensures { result ≡ cause_of own lock }
{
    match (lock, own) {
        (BatchLock::Recalled, _) => Cause::Recalled,
        (BatchLock::Withdrawn, _) => Cause::Withdrawn,
        (BatchLock::Free, OwnStatus::Active) => Cause::Unknown,
        (BatchLock::Free, OwnStatus::Held) => Cause::Held,
        (BatchLock::Free, OwnStatus::Supplied) => Cause::Supplied,
        (BatchLock::Free, OwnStatus::Exported) => Cause::Exported,
        (BatchLock::Free, OwnStatus::Sampled) => Cause::Sampled,
        (BatchLock::Free, OwnStatus::Destroyed) => Cause::Destroyed,
        (BatchLock::Free, OwnStatus::Stolen) => Cause::Stolen,
    }
}

fn is_flagged(own: OwnStatus, lock: BatchLock) -> bool
    ensures { result ≡ is_flagged own lock }
{
    matches!(lock, BatchLock::Free) && !matches!(own, OwnStatus::Destroyed)
}
