//! Who did an act.
ghost use Rattle.std.specs.Prelude.{◌≡◌, IsTrue};
ghost use Rattle.nmvs_cases.specs.Authors as authors;

use crate::Reader;
use nmvs_identifier::Name;
use nmvs_rules::{Actor, Role};
use nmvs_words::role_word;

/// The word that stands for the role of an officer.
pub(crate) const OFFICER: &str = "OFFICER";

/// What stands for the authorisation and the premises of an officer, who has none.
const NOTHING: &str = "-";

/// Who did an act, in the capacity of then.
#[derive(Clone, Copy)]
pub enum Author {
    /// One of the operator's staff.
    Officer(Name),
    User(Name, Actor),
}

impl Author {
    /// As whom the author reads and acts.
    pub fn reader(&self) -> Reader
        ensures { result ≡ authors.author_reader self.now }
    {
        match self {
            Author::Officer(_) => Reader::Officer,
            Author::User(_, actor) => match actor.role {
                Role::Authority => Reader::Authority,
                _ => Reader::Owner,
            },
        }
    }

    /// The author's name.
    pub fn user(&self) -> &Name
        ensures { result.now ≡ authors.author_user self.now }
    {
        match self {
            Author::Officer(user) | Author::User(user, _) => user,
        }
    }

    /// The word of the author's role, or that of an officer.
    pub fn role(&self) -> &'static str
        ensures { result.now ≡ authors.author_role self.now }
    {
        match self {
            Author::Officer(_) => OFFICER,
            Author::User(_, actor) => role_word(actor.role),
        }
    }

    /// The author's authorisation, or `-` for an officer.
    pub fn authorisation(&self) -> &str
        ensures { result.now ≡ authors.author_authorisation self.now }
    {
        match self {
            Author::Officer(_) => NOTHING,
            Author::User(_, actor) => actor.authorisation.text(),
        }
    }

    /// The author's premises, or `-` for an officer.
    pub fn premises(&self) -> &str
        ensures { result.now ≡ authors.author_premises self.now }
    {
        match self {
            Author::Officer(_) => NOTHING,
            Author::User(_, actor) => actor.premises.text(),
        }
    }

    /// Proves that the names are in their grammar, and does nothing else.
    pub fn tell_grammar(&self)
        ensures { IsTrue (authors.is_author self.now) }
    {
        match self {
            Author::Officer(user) => user.tell_grammar(),
            Author::User(user, actor) => {
                user.tell_grammar();
                actor.tell_grammar();
            }
        }
    }
}
