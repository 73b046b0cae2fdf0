//! One copy of the users.
ghost use Rattle.std.specs.Prelude.{◌≡◌, [], ◌∷◌, ◌++◌, length, slice_get, IfSome};
ghost use Rattle.nmvs_directory.specs.Known.{known};
ghost use Rattle.nmvs_directory.specs.Users.{users_of};

use crate::history::History;
use crate::{Change, Look, Naming, Standing};
use indexmap::IndexMap;
use left_right::Absorb;
use nmvs_identifier::Name;
use std::alloc::{AllocError, Allocator};
use std::hash::{BuildHasherDefault, FoldHasher};
use std::marker::Model;

/// The standing of each user after the changes that name it. Contracts see the changes, of which no list is kept.
#[derive(Drop)]
pub struct Users<J: Naming, A: Allocator> {
    standings: IndexMap<Name, Standing, BuildHasherDefault<FoldHasher>, A>,
    history: History<J>,
}

impl<J: Naming, A: Allocator> Model for Users<J, A> {
    ghost use Rattle.std.specs.Prelude.{◌≡◌, List};
    ghost use Rattle.std.specs.Option.{option_map};
    ghost use Rattle.indexmap.specs.IndexMap.{get};
    ghost use Rattle.nmvs_identifier.specs.Name.{Name};
    ghost use Rattle.nmvs_identifier.specs.Texts.{same_text};
    ghost use Rattle.nmvs_directory.specs.Known.{last_effect};
    ghost use Rattle.nmvs_directory.specs.Users.{users_of, effect_of};
    ghost use Rattle.nmvs_directory.specs.declared.change.Change.{Change};

    ghost Value = { List Change };

    ghost view = { λ u. u.history };

    ghost invariant = { λ u. (u.standings.entries ≡ users_of u.history)
        × ((user : Name) → option_map effect_of (get same_text u.standings user) ≡ last_effect u.history user) };
}

impl<J: Naming, A: Allocator + Copy> Users<J, A> {
    pub fn new(alloc: A, history: History<J>) -> Users<J, A>
        requires { history ≡ [] }
        ensures { result ≡ [] }
    {
        Users {
            standings: IndexMap::new(alloc),
            history,
        }
    }
}

impl<J: Naming, A: Allocator> Users<J, A> {
    /// The changes that it has.
    pub fn history(&self) -> &History<J>
        ensures { result.now ≡ self.now }
    {
        &self.history
    }

    /// The answer about a user. The last change that names the user decides.
    pub fn look(&self, user: &Name) -> Look
        ensures { result ≡ known self.now user.now }
    {
        match self.standings.get(user) {
            None => Look::Nobody,
            Some(Standing::Removed) => Look::Nobody,
            Some(Standing::Suspended(_)) => Look::Suspended,
            Some(Standing::Enrolled(enrolment)) => Look::Known(*enrolment),
        }
    }

    /// The number of users that the changes name.
    pub fn count(&self) -> usize
        ensures { result ≡ length (users_of self.now) }
    {
        self.standings.len()
    }

    /// The user at this place in the order in which the changes first named them, and its standing.
    pub fn user(&self, place: usize) -> Option<(Name, Standing)>
        ensures { result ≡ slice_get (users_of self.now) place }
    {
        let (name, standing) = self.standings.get_index(place)?;
        Some((*name, *standing))
    }
}

/// The one change by which the second list goes on from the first.
fn next<J: Naming>(before: &History<J>, after: &History<J>) -> Option<Change>
    ensures { IfSome result (λ change. after.now ≡ before.now ++ change ∷ []) }
{
    if after.covers(before) && after.len() - before.len() == 1 {
        after.last()
    } else {
        None
    }
}

/// An operation is the list of changes up to the one that it adds.
impl<J: Naming, A: Allocator> Absorb<History<J>> for Users<J, A> {
    // A clause reads an array as a list, of any length.
    type State = [Change; 0];

    ghost state = { λ u. u };

    ghost applied = { λ changes longer. longer };

    fn absorb_first(
        &mut self,
        operation: &History<J>,
        _other: &Users<J, A>,
    ) -> Result<(), AllocError> {
        let Change { user, effect } = next(&self.history, operation).ok_or(AllocError)?;
        let standing = Standing::after(self.standings.get(&user).copied(), effect);
        self.standings
            .insert(user, standing)
            .map_err(|_| AllocError)?;
        self.history = operation.again();
        Ok(())
    }
}
