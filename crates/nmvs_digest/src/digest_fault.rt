use std::alloc::AllocError;
use thiserror::Error;

/// The reason why the digest that a file has to have is not known.
#[derive(Clone, Copy, Debug, Error)]
pub enum DigestFault {
    #[error("out of memory")]
    Memory,
    /// The file with the digest cannot be opened, or cannot be read to its end.
    #[error("it cannot be read")]
    Unread,
    /// The file with the digest is not the one line for a file of this name.
    #[error("it is not the line that tells the digest of this file")]
    Malformed,
}

impl From<AllocError> for DigestFault {
    fn from(_: AllocError) -> DigestFault {
        DigestFault::Memory
    }
}
