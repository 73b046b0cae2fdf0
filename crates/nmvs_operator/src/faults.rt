use crate::ServiceFault;
use nmvs_messages::CommandFault;
use std::alloc::AllocError;
use thiserror::Error;

/// Why the users of a file are not published.
#[derive(Clone, Copy, Debug, PartialEq, Eq, Error)]
pub enum LoadFault {
    #[error("there is no memory for the users")]
    Memory,
    #[error("the users file could not be read to its end")]
    Read,
    /// The line of this number, counted from 1, is no command.
    #[error("line {0} of the users file: {1}")]
    Line(usize, CommandFault),
    /// The line of this number, counted from 1, lacks its LF: the file may have been cut off.
    #[error("line {0} of the users file has no end")]
    Unended(usize),
}

impl From<AllocError> for LoadFault {
    ghost use Rattle.std.specs.Prelude.{◌≡◌};
    ghost use Rattle.nmvs_operator.specs.declared.faults.LoadFault.TheVariants.{Memory};

    ghost from_gives = { λ e f. f ≡ Memory };

    fn from(_: AllocError) -> LoadFault {
        LoadFault::Memory
    }
}

/// Why an order was not carried out.
#[derive(Clone, Copy, Debug, PartialEq, Eq, Error)]
pub enum ObeyFault {
    #[error("{0}")]
    Unread(CommandFault),
    #[error("{0}")]
    Undone(ServiceFault),
    #[error("there is no memory for the change")]
    Memory,
    /// A line of the users file is no command.
    #[error("the users file has faults")]
    Users,
    /// The orders ended before its LF came.
    #[error("the command has no end")]
    Unended,
}
