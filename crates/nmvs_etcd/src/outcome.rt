//! The meaning of an answer.

/// The meaning of an answer to a demand of a server (own).
#[derive(Clone, Copy)]
pub enum Outcome {
    /// The engine carried the demand out, at this try or at an earlier one.
    Confirmed,
    /// The engine refused the demand, and no earlier try of it holds. The server confirms nothing more.
    Fenced,
    /// There is no whole answer. The server sends the same demand again.
    Unknown,
}
