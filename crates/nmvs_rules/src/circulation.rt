//! Packs in circulation: verifying them, reading their status, and decommissioning them (Articles
//! 11, 12, 22, 25 and 36).
ghost use Rattle.std.specs.Prelude.{◌≡◌, ◌+◌, ◌<◌, ◌^◌};
ghost use Rattle.nmvs_rules.specs.Rules.{onward_by, verify_reply, status_reply, decommission_reply, is_past, is_authentic};

use crate::alerting::alert_on;
use crate::{BatchLock, Known, Onward, OwnStatus, Reply};
use nmvs_identifier::{Expiry, Moment};

/// Where a pack with this own status and batch lock may go (Article 12).
pub fn onward_of(own: OwnStatus, lock: BatchLock) -> Onward
    ensures { result ≡ onward_by own lock }
{
    match (lock, own) {
        (BatchLock::Recalled | BatchLock::Withdrawn, _) => Onward::Disposal,
        (BatchLock::Free, OwnStatus::Active) => Onward::Stock,
        (BatchLock::Free, OwnStatus::Held) => Onward::Supply,
        (BatchLock::Free, OwnStatus::Supplied) => Onward::Nowhere,
        (BatchLock::Free, OwnStatus::Exported) => Onward::Export,
        (BatchLock::Free, OwnStatus::Sampled) => Onward::Authorities,
        (BatchLock::Free, OwnStatus::Destroyed | OwnStatus::Stolen) => Onward::Disposal,
    }
}

/// The reply to a verification of a known pack, after `alerts` alerts on its product code.
pub(crate) fn verify_reply(moment: Moment, known: &Known, lock: BatchLock, alerts: u64) -> Reply
    requires { alerts + 1 < 2 ^ 64 }
    ensures { result ≡ verify_reply moment known.now lock alerts }
{
    if !is_authentic(known.own, lock) {
        return alert_on(known, lock, alerts);
    }
    Reply::Authentic {
        batch: known.batch,
        expiry: known.expiry,
        expired: is_past(&known.expiry, moment),
    }
}

/// The reply to a question for the status of a known pack.
pub(crate) fn status_reply(known: &Known, lock: BatchLock) -> Reply
    ensures { result ≡ status_reply known.now lock }
{
    Reply::StatusIs {
        own: known.own,
        lock,
        onward: onward_of(known.own, lock),
        batch: known.batch,
        expiry: known.expiry,
    }
}

/// The reply to a decommissioning of a known pack, after `alerts` alerts on its product code.
pub(crate) fn decommission_reply(known: &Known, lock: BatchLock, alerts: u64) -> Reply
    requires { alerts + 1 < 2 ^ 64 }
    ensures { result ≡ decommission_reply known.now lock alerts }
{
    if !is_authentic(known.own, lock) {
        return alert_on(known, lock, alerts);
    }
    Reply::Decommissioned
}

/// Whether the expiry date is past.
pub(crate) fn is_past(expiry: &Expiry, moment: Moment) -> bool
    ensures { result ≡ is_past expiry.now moment }
{
    expiry.day() < moment.day()
}

fn is_authentic(own: OwnStatus, lock: BatchLock) -> bool
    ensures { result ≡ is_authentic own lock }
{
    matches!((own, lock), (OwnStatus::Active, BatchLock::Free))
}
