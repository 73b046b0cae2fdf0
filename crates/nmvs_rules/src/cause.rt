/// The reason why authenticity is not confirmed (Article 36).
#[derive(Clone, Copy, PartialEq, Eq)]
pub enum Cause {
    /// The repository has no such pack.
    Unknown,
    Recalled,
    Withdrawn,
    Held,
    Supplied,
    Exported,
    Sampled,
    Destroyed,
    Stolen,
}
