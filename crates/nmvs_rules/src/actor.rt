ghost use Rattle.std.specs.Prelude.{IsTrue};
ghost use Rattle.nmvs_rules.specs.Entries.{is_actor};

use crate::Role;
use nmvs_identifier::Name;

/// The capacity in which a user asks: role, authorisation or entitlement, and premises (Article 13(1)).
#[derive(Clone, Copy, PartialEq, Eq)]
pub struct Actor {
    pub role: Role,
    pub authorisation: Name,
    pub premises: Name,
}

impl Actor {
    /// Proves that the names are in their grammar, and does nothing else.
    pub fn tell_grammar(&self)
        ensures { IsTrue (is_actor self.now) }
    {
        self.authorisation.tell_grammar();
        self.premises.tell_grammar();
    }
}
