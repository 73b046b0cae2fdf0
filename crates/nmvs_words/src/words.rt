//! The words of roles, reasons, statuses, locks, causes, flags and refusals.
ghost use Rattle.std.specs.Prelude.{◌≡◌};
ghost use Rattle.nmvs_words.specs.Words as words;

use crate::row::named;
use nmvs_rules::{BatchLock, Cause, Onward, OwnStatus, Reason, Refusal, Role};

/// The roles: the addressees of Articles 10 to 13, 22, 25, 35, 36 and 40. All words are own.
pub const ROLES: [(&str, Role); 5] = [
    ("HOLDER", Role::Holder),
    ("MANUFACTURER", Role::Manufacturer),
    ("WHOLESALER", Role::Wholesaler),
    ("PHARMACY", Role::Pharmacy),
    ("AUTHORITY", Role::Authority),
];

/// The word of a role.
pub fn role_word(role: Role) -> &'static str
    ensures { result.now ≡ words.role_word role }
{
    ROLES[role as usize].0
}

/// The role that has this word.
pub fn role_named(word: &str) -> Option<Role>
    ensures { result ≡ words.role_named word.now }
{
    named(&ROLES, word.as_bytes())
}

/// The reasons of a decommissioning (Articles 22 and 25).
pub const REASONS: [(&str, Reason); 5] = [
    ("SUPPLY", Reason::Supply),
    ("HOLD", Reason::Hold),
    ("EXPORT", Reason::Export),
    ("SAMPLE", Reason::Sample),
    ("DESTROY", Reason::Destroy),
];

/// The word of a decommissioning for a reason.
pub fn reason_word(reason: Reason) -> &'static str
    ensures { result.now ≡ words.reason_word reason }
{
    REASONS[reason as usize].0
}

/// The own statuses of a pack (Articles 22, 25 and 40).
pub const OWN_STATUSES: [(&str, OwnStatus); 7] = [
    ("ACTIVE", OwnStatus::Active),
    ("HELD", OwnStatus::Held),
    ("SUPPLIED", OwnStatus::Supplied),
    ("EXPORTED", OwnStatus::Exported),
    ("SAMPLED", OwnStatus::Sampled),
    ("DESTROYED", OwnStatus::Destroyed),
    ("STOLEN", OwnStatus::Stolen),
];

/// The word of an own status.
pub fn own_word(own: OwnStatus) -> &'static str
    ensures { result.now ≡ words.own_word own }
{
    OWN_STATUSES[own as usize].0
}

/// The own status that has this word.
pub fn own_named(word: &str) -> Option<OwnStatus>
    ensures { result ≡ words.own_named word.now }
{
    named(&OWN_STATUSES, word.as_bytes())
}

/// The locks of a batch (Article 40).
pub const LOCKS: [(&str, BatchLock); 3] = [
    ("FREE", BatchLock::Free),
    ("RECALLED", BatchLock::Recalled),
    ("WITHDRAWN", BatchLock::Withdrawn),
];

/// The word of a batch lock.
pub fn lock_word(lock: BatchLock) -> &'static str
    ensures { result.now ≡ words.lock_word lock }
{
    LOCKS[lock as usize].0
}

/// The batch lock that has this word.
pub fn lock_named(word: &str) -> Option<BatchLock>
    ensures { result ≡ words.lock_named word.now }
{
    named(&LOCKS, word.as_bytes())
}

/// The places where a pack may go (Article 12).
pub const ONWARDS: [(&str, Onward); 6] = [
    ("STOCK", Onward::Stock),
    ("SUPPLY", Onward::Supply),
    ("EXPORT", Onward::Export),
    ("DISPOSAL", Onward::Disposal),
    ("AUTHORITIES", Onward::Authorities),
    ("NOWHERE", Onward::Nowhere),
];

/// The word that says where a pack may go.
pub fn onward_word(onward: Onward) -> &'static str
    ensures { result.now ≡ words.onward_word onward }
{
    ONWARDS[onward as usize].0
}

/// Where a pack may go, by this word.
pub fn onward_named(word: &str) -> Option<Onward>
    ensures { result ≡ words.onward_named word.now }
{
    named(&ONWARDS, word.as_bytes())
}

/// The causes of alerts (Article 36).
pub const CAUSES: [(&str, Cause); 9] = [
    ("UNKNOWN", Cause::Unknown),
    ("RECALLED", Cause::Recalled),
    ("WITHDRAWN", Cause::Withdrawn),
    ("HELD", Cause::Held),
    ("SUPPLIED", Cause::Supplied),
    ("EXPORTED", Cause::Exported),
    ("SAMPLED", Cause::Sampled),
    ("DESTROYED", Cause::Destroyed),
    ("STOLEN", Cause::Stolen),
];

/// The word of an alert's cause.
pub fn cause_word(cause: Cause) -> &'static str
    ensures { result.now ≡ words.cause_word cause }
{
    CAUSES[cause as usize].0
}

/// The alert's cause that has this word.
pub fn cause_named(word: &str) -> Option<Cause>
    ensures { result ≡ words.cause_named word.now }
{
    named(&CAUSES, word.as_bytes())
}

/// The word that says whether an expiry date is past.
pub fn validity_word(expired: bool) -> &'static str
    ensures { result.now ≡ words.validity_word expired }
{
    if expired { "EXPIRED" } else { "VALID" }
}

/// Whether an expiry date is past, by this word.
pub fn validity_named(word: &str) -> Option<bool>
    ensures { result ≡ words.validity_named word.now }
{
    match word {
        "VALID" => Some(false),
        "EXPIRED" => Some(true),
        _ => None,
    }
}

/// The word that says whether an alert is flagged as a potential falsification.
pub fn flag_word(flagged: bool) -> &'static str
    ensures { result.now ≡ words.flag_word flagged }
{
    if flagged { "FLAGGED" } else { "UNFLAGGED" }
}

/// Whether an alert is flagged as a potential falsification, by this word.
pub fn flag_named(word: &str) -> Option<bool>
    ensures { result ≡ words.flag_named word.now }
{
    match word {
        "FLAGGED" => Some(true),
        "UNFLAGGED" => Some(false),
        _ => None,
    }
}

/// The refusals, each with its source; the first has number 1, and the words are own.
pub const REFUSALS: [(&str, Refusal); 15] = [
    ("ROLE", Refusal::Role), // own
    ("UNKNOWN", Refusal::Unknown), // own, after Articles 13 and 40
    ("UNKNOWN_BATCH", Refusal::UnknownBatch), // own, after Article 40
    ("NOT_HOLDER", Refusal::NotHolder), // own, after Articles 33 and 40
    ("DUPLICATE", Refusal::Duplicate), // Article 35(3)
    ("ALREADY", Refusal::Already), // own, after Article 40
    ("LOCKED", Refusal::Locked), // Articles 13(1)(d) and 40
    ("STILL_ACTIVE", Refusal::StillActive), // own, after Article 13
    ("IS_STOLEN", Refusal::IsStolen), // Article 13(1)(d)
    ("IS_DESTROYED", Refusal::IsDestroyed), // Article 13(1)(d)
    ("WAS_SUPPLIED", Refusal::WasSupplied), // Article 13(1)(e)
    ("OTHER", Refusal::Other), // Article 13(1)(a)
    ("LATE", Refusal::Late), // Article 13(1)(b)
    ("EXPIRED", Refusal::Expired), // Article 13(1)(c)
    ("NOT_HELD", Refusal::NotHeld), // own, after Article 25
];

/// The word of a refusal.
pub fn refusal_word(refusal: Refusal) -> &'static str
    ensures { result.now ≡ words.refusal_word refusal }
{
    REFUSALS[refusal as usize].0
}

/// The refusal that has this number.
pub fn refusal_numbered(number: u64) -> Option<Refusal>
    ensures { result ≡ words.refusal_numbered number }
{
    if number == 0 || number > REFUSALS.len() as u64 {
        return None;
    }
    Some(REFUSALS[number as usize - 1].1)
}
