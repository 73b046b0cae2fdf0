//! Refusals of questions.
ghost use Rattle.std.specs.Prelude.{◌≡◌};
ghost use Rattle.nmvs_rules.specs.Replies.{refusal_number};

/// The reason why a question is refused (after Articles 13 and 40; the names, numbers and order are own).
#[derive(Clone, Copy, PartialEq, Eq)]
pub enum Refusal {
    /// The role may not ask this.
    Role,
    /// The pack is unknown.
    Unknown,
    /// No known pack is of the batch.
    UnknownBatch,
    /// The product code has another holder.
    NotHolder,
    /// The pack is known already.
    Duplicate,
    /// The batch is recalled or withdrawn already, or the pack reported stolen already.
    Already,
    /// The pack's batch is recalled or withdrawn.
    Locked,
    /// The pack is active, so there is nothing to revert.
    StillActive,
    /// The pack was reported stolen.
    IsStolen,
    /// The pack was decommissioned for destruction.
    IsDestroyed,
    /// The pack was supplied to the public.
    WasSupplied,
    /// Another authorisation or other premises decommissioned the pack.
    Other,
    /// More than 10 days have passed since the decommissioning, by days of UTC.
    Late,
    /// The pack is expired.
    Expired,
    /// The pack is not held for a later supply.
    NotHeld,
}

impl Refusal {
    /// The number of the refusal, from 1 to 15.
    pub fn number(self) -> u8
        ensures { result ≡ refusal_number self }
    {
        match self {
            Refusal::Role => 1,
            Refusal::Unknown => 2,
            Refusal::UnknownBatch => 3,
            Refusal::NotHolder => 4,
            Refusal::Duplicate => 5,
            Refusal::Already => 6,
            Refusal::Locked => 7,
            Refusal::StillActive => 8,
            Refusal::IsStolen => 9,
            Refusal::IsDestroyed => 10,
            Refusal::WasSupplied => 11,
            Refusal::Other => 12,
            Refusal::Late => 13,
            Refusal::Expired => 14,
            Refusal::NotHeld => 15,
        }
    }
}
