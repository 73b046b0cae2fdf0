/// The reason of a decommissioning (Articles 22 and 25).
#[derive(Clone, Copy, PartialEq, Eq)]
pub enum Reason {
    /// It is handed over to the public now.
    Supply,
    /// It is decommissioned for supply and still in the decommissioner's possession.
    Hold,
    /// It leaves the Union.
    Export,
    /// An authority took it as a sample.
    Sample,
    /// It cannot return to saleable stock, or is to be destroyed.
    Destroy,
}
