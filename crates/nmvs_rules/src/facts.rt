//! The facts that a reply rests on.
ghost use Rattle.std.specs.Prelude.{◌≡◌};
ghost use Rattle.nmvs_rules.specs.Printed.{differs};

use crate::{BatchLock, OwnStatus, Printed};
use nmvs_identifier::{Batch, Expiry, Moment, Name};

/// The last accepted entry about a pack.
#[derive(Clone, Copy, PartialEq, Eq)]
pub struct Mark {
    /// The number of entries before it in the trail.
    pub place: u64,
    pub moment: Moment,
    pub authorisation: Name,
    pub premises: Name,
}

/// The values known of a pack.
#[derive(Clone, Copy, PartialEq, Eq)]
pub struct Known {
    pub batch: Batch,
    pub expiry: Expiry,
    pub own: OwnStatus,
    pub mark: Mark,
}

/// The number of packs of a batch in each own status.
#[derive(Clone, Copy, PartialEq, Eq)]
pub struct Counts {
    pub active: u64,
    pub held: u64,
    pub supplied: u64,
    pub exported: u64,
    pub sampled: u64,
    pub destroyed: u64,
    pub stolen: u64,
}

/// The record of a batch.
#[derive(Clone, Copy, PartialEq, Eq)]
pub struct BatchRecord {
    pub lock: BatchLock,
    pub counts: Counts,
}

/// The facts that the reply to a question rests on.
#[derive(Clone, Copy)]
pub struct Facts {
    /// The pack that the question names, if it is known.
    pub pack: Option<Known>,
    /// The number of entries about that pack.
    pub about: u64,
    /// The batch of that pack, or the one that a recall or withdrawal names. None if it is unknown, which counts as free.
    pub batch: Option<BatchRecord>,
    /// The holder of the product code.
    pub holder: Option<Name>,
    /// The number of alerts on the product code so far.
    pub alerts: u64,
}

impl Facts {
    /// Whether the pack is known with another batch or another expiry date than those printed on it, as they are written (own).
    /// An unknown pack has none. Nothing differs if no printed values are given.
    pub fn differ_from(&self, printed: &Option<Printed>) -> bool
        ensures { result ≡ differs printed.now self.now.pack }
    {
        let Some(printed) = printed else {
            return false;
        };
        let Some(known) = &self.pack else {
            return false;
        };
        known.batch != printed.batch || known.expiry != printed.expiry
    }
}
