//! Replies to questions.
ghost use Rattle.std.specs.Prelude.{◌≡◌, IsTrue};
ghost use Rattle.nmvs_rules.specs.Entries.{is_reply};
ghost use Rattle.nmvs_rules.specs.Printed.{is_conditional};
ghost use Rattle.nmvs_rules.specs.Repeats.{tells_state};
ghost use Rattle.nmvs_rules.specs.Trail.{is_alert};

use crate::{BatchLock, Cause, Onward, OwnStatus, Refusal};
use nmvs_identifier::{Batch, Expiry};

/// The reply to a question.
#[derive(Clone, Copy, PartialEq, Eq)]
pub enum Reply {
    Uploaded,
    Authentic {
        batch: Batch,
        expiry: Expiry,
        expired: bool,
    },
    /// Authenticity is not confirmed (Article 36).
    Alert {
        cause: Cause,
        /// Whether the alert is flagged as a potential falsification.
        flagged: bool,
        /// The alert's number among those of the product code, from 1.
        number: u64,
    },
    StatusIs {
        own: OwnStatus,
        lock: BatchLock,
        onward: Onward,
        batch: Batch,
        expiry: Expiry,
    },
    /// The pack whose status was asked for is unknown.
    NoPack,
    Decommissioned,
    HandedOver,
    Reverted,
    /// The batch is recalled or withdrawn from now on; the number is that of its packs that were active.
    LockedNow(u64),
    MarkedStolen,
    /// The number of earlier entries about the pack.
    Shown(u64),
    Refused(Refusal),
}

impl Reply {
    /// Whether it gives the state of a pack at its moment, so that it never answers again (own).
    pub fn tells_state(&self) -> bool
        ensures { result ≡ tells_state self.now }
    {
        matches!(
            self,
            Reply::Authentic { .. } | Reply::StatusIs { .. } | Reply::NoPack | Reply::Shown(_)
        )
    }

    /// Whether it is an alert (Article 36).
    pub fn is_alert(&self) -> bool
        ensures { result ≡ is_alert self.now }
    {
        matches!(self, Reply::Alert { .. })
    }

    /// Whether it is given only if nothing printed on the pack differs (own). Such a reply carries an operation out,
    /// calls the pack authentic, or gives its status. An alert is given whatever is printed (Articles 35(1)(g) and
    /// 36(b)), and so is a refusal.
    pub fn is_conditional(&self) -> bool
        ensures { result ≡ is_conditional self.now }
    {
        !matches!(
            self,
            Reply::Alert { .. } | Reply::Refused(_) | Reply::NoPack | Reply::Shown(_)
        )
    }

    /// Proves that the reply's texts are in their grammars and its numbers in their ranges, and does nothing else.
    pub fn tell_ranges(&self)
        ensures { IsTrue (is_reply self.now) }
    {
        match self {
            Reply::Authentic { batch, expiry, .. } | Reply::StatusIs { batch, expiry, .. } => {
                batch.tell_grammar();
                expiry.tell_grammar();
            }
            Reply::Alert { number, .. } => {
                // A proof learns that the number in a reference fits its type once it is read.
                let _number = *number;
            }
            Reply::LockedNow(count) | Reply::Shown(count) => {
                // Read for its range, as above.
                let _count = *count;
            }
            _ => {}
        }
    }
}
