/// The status that a pack has by its own last accepted operation, whatever its batch (Articles 22, 25 and 40).
#[derive(Clone, Copy, PartialEq, Eq)]
pub enum OwnStatus {
    Active,
    /// Decommissioned for supply, still in possession.
    Held,
    Supplied,
    Exported,
    Sampled,
    Destroyed,
    Stolen,
}
