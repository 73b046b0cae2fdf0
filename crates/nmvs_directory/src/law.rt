//! The rule of a directory's one list of changes, and its one step.

use crate::Change;
use logbook::{Gain, Plain, Play, Rule};

/// The rule: its first word is the length of the list.
pub struct Law;

impl Rule<Change, u64> for Law {
    ghost use Rattle.std.specs.Prelude.{[]};
    ghost use base.Fml.{ftrue};
    ghost use Rattle.nmvs_directory.specs.Law.{IsKept};

    ghost holds = { λ cells log. IsKept cells log };

    ghost first = { [] };

    ghost hinted = { λ n log. Unit {0} };

    ghost shows = { λ log. [] };

    ghost keeps = { λ names log. ftrue };

    ghost moves = { λ ask before after answer. Unit {0} };
}

/// A step trades nothing.
pub struct Nothing;

impl Gain<Change, u64> for Nothing {
    ghost use base.Fml.{ftrue};

    ghost after = { λ names about answer. ftrue };
}

/// The step that adds a change.
pub struct Add;

impl Play<Change, u64> for Add {
    ghost use Rattle.nmvs_directory.specs.Law.{Adds};

    ghost then = { Adds };
}

/// It asks for the change.
impl Plain<Change, Change, u64> for Add {
    ghost use Rattle.std.specs.Prelude.{None};

    ghost ask = { λ change. change };

    ghost state = { λ change. None };
}
