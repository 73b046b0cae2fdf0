//! The fault of a repository's opening.
use std::alloc::AllocError;
use thiserror::Error;

/// The reason for which there are no keepers for a repository.
#[derive(Clone, Copy, Debug, PartialEq, Eq, Error)]
pub enum OpenFault {
    #[error("there is no memory for the histories")]
    Memory,
    #[error("a repository has 1 to 8 shards")]
    Count,
}

impl From<AllocError> for OpenFault {
    ghost use Rattle.std.specs.Prelude.{◌≡◌};
    ghost use Rattle.nmvs_desk.specs.declared.faults.OpenFault.TheVariants.{Memory};

    ghost from_gives = { λ e f. f ≡ Memory };

    fn from(_: AllocError) -> OpenFault {
        OpenFault::Memory
    }
}
