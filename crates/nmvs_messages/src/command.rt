//! The commands of a registrar.
use nmvs_identifier::Name;
use nmvs_rules::Enrolment;
use thiserror::Error;

/// A registrar's command.
#[derive(Clone, Copy, PartialEq, Eq)]
pub enum Command {
    /// Lets a user ask by this enrolment.
    Enrol(Name, Enrolment),
    /// Suspends a user: its lines are turned away from now on.
    Suspend(Name),
    /// Removes a user: it is unknown from now on.
    Remove(Name),
}

/// The fault of a command that cannot be read.
#[derive(Clone, Copy, Debug, PartialEq, Eq, Error)]
pub enum CommandFault {
    #[error("the command has more than 200 bytes")]
    Long,
    #[error("the command has a byte that is no printable ASCII character")]
    Bytes,
    #[error("the command has an empty field or the wrong number of fields")]
    Fields,
    #[error("the command's word is unknown")]
    Word,
    #[error("the command's role is unknown")]
    Role,
    #[error("the command's user is no name")]
    User,
    #[error("the command's authorisation is no name")]
    Authorisation,
    #[error("the command's premises are no name")]
    Premises,
    #[error("the command's last day is no date YYMMDD")]
    Until,
    #[error("the command's products are no product codes and company prefixes")]
    Codes,
}
