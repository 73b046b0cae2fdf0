ghost use Rattle.std.specs.Prelude.{◌≡◌};

use crate::Naming;
use crate::history::History;
use std::marker::Model;

/// The notice of a publication. Contracts see the changes that were published, oldest first.
#[derive(Drop)]
pub struct Notice<J: Naming> {
    told: History<J>,
}

impl<J: Naming> Model for Notice<J> {
    ghost use Rattle.std.specs.Prelude.{List};
    ghost use Rattle.nmvs_directory.specs.declared.change.Change.{Change};

    ghost Value = { List Change };

    ghost view = { λ n. n.told };
}

impl<J: Naming> Notice<J> {
    pub(crate) fn new(told: History<J>) -> Notice<J>
        ensures { result ≡ told }
    {
        Notice { told }
    }

    /// A copy.
    pub fn again(&self) -> Notice<J>
        ensures { result ≡ self.now }
    {
        Notice {
            told: self.told.again(),
        }
    }

    /// The published changes.
    pub(crate) fn history(&self) -> &History<J>
        ensures { result.now ≡ self.now }
    {
        &self.told
    }
}
