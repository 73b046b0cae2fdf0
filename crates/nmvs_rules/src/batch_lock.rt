/// Whether a batch was recalled or withdrawn (Article 40).
#[derive(Clone, Copy, PartialEq, Eq)]
pub enum BatchLock {
    Free,
    Recalled,
    Withdrawn,
}
