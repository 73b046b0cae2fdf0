//! The meaning of lines.
ghost use Rattle.std.specs.Prelude.{◌≡◌};
ghost use Rattle.nmvs_messages.specs.Asks.{user_of};

use nmvs_identifier::{Name, Pack, ProductCode, Tag};
use nmvs_rules::{PackQuestion, Printed, Question};
use thiserror::Error;

/// The meaning of a line.
#[derive(Clone, Copy)]
pub enum Line {
    /// It asks the desk.
    Ask(Ask),
    /// PING asks whether the program answers.
    Ping,
    /// VERSION asks for the version of the program.
    Version,
    /// HELP asks for the lines that there are.
    Help,
    /// QUIT ends the session.
    Quit,
}

/// The ask, and the tag by which it can be asked again.
#[derive(Clone, Copy)]
pub struct Ask {
    pub tag: Option<Tag>,
    pub asked: Asked,
}

/// The ask of a user.
#[derive(Clone, Copy)]
pub enum Asked {
    /// The question of a user, by name.
    Question(Name, Question),
    /// The question of a user about a pack, by name. It is put only if the pack was not uploaded with other values than those
    /// printed on it.
    Conditional(Name, PackQuestion, Pack, Printed),
    /// The report of a product code, for a user.
    Report(Name, ProductCode),
}

impl Ask {
    /// The user that asks.
    pub fn user(&self) -> &Name
        ensures { result.now ≡ user_of self.now }
    {
        match &self.asked {
            Asked::Question(user, _) | Asked::Conditional(user, _, _, _) | Asked::Report(user, _) =>
                user,
        }
    }
}

/// A line that cannot be read: its fault, and the tag that it begins with, if there is one.
#[derive(Clone, Copy)]
pub struct Unread {
    pub tag: Option<Tag>,
    pub fault: LineFault,
}

/// The fault of a line that cannot be read.
#[derive(Clone, Copy, Debug, Error)]
pub enum LineFault {
    #[error("the line has more than 200 bytes")]
    Long,
    #[error("the line ends with CR LF, and not with LF alone")]
    Return,
    #[error("the line has a byte that is no printable ASCII character")]
    Bytes,
    #[error("the line has an empty field or the wrong number of fields")]
    Fields,
    #[error("the line's word is unknown")]
    Word,
    #[error("the line's code is no product code")]
    Code,
    #[error("the line's serial is no serial number")]
    Serial,
    #[error("the line's batch is no batch number")]
    Batch,
    #[error("the line's expiry is no expiry date")]
    Expiry,
    #[error("the line's user is no name")]
    User,
}
