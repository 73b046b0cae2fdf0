use thiserror::Error;

/// A read, a write or a flush failed. An interrupted one counts as failed.
#[derive(Clone, Copy, Debug, PartialEq, Eq, Hash, Error)]
#[error("a device failed")]
pub struct Failed;
