//! Questions about a pack.
ghost use Rattle.std.specs.Prelude.{◌≡◌};
ghost use Rattle.nmvs_rules.specs.Trail.{own_by_question};

use crate::{OwnStatus, Reason};

/// A question about a pack, without the pack.
#[derive(Clone, Copy, PartialEq, Eq)]
pub enum PackQuestion {
    /// Asks whether the pack is authentic (Article 11).
    Verify,
    /// Asks for the pack's status without an alert (Article 36).
    Status,
    /// Takes the pack out of circulation (Articles 22 and 25).
    Decommission(Reason),
    /// Hands over to the public a pack that was decommissioned while still in possession (own, after Article 25).
    Handover,
    /// Makes the decommissioned pack active again (Article 13).
    Revert,
    /// Reports the pack as stolen (Article 40).
    Theft,
    /// Asks for the record of all operations on the pack (Articles 35, 36(i) and 37(f)).
    Audit,
}

impl PackQuestion {
    /// The own status that the question, once accepted, gives its pack (Articles 22, 25 and 40).
    pub fn own_given(&self) -> OwnStatus
        ensures { result ≡ own_by_question self.now }
    {
        match self {
            PackQuestion::Decommission(reason) => match reason {
                Reason::Supply => OwnStatus::Supplied,
                Reason::Hold => OwnStatus::Held,
                Reason::Export => OwnStatus::Exported,
                Reason::Sample => OwnStatus::Sampled,
                Reason::Destroy => OwnStatus::Destroyed,
            },
            PackQuestion::Handover => OwnStatus::Supplied,
            PackQuestion::Theft => OwnStatus::Stolen,
            _ => OwnStatus::Active,
        }
    }
}
