//! Readers of the published users.
ghost use Rattle.std.specs.Prelude.{◌≡◌, ◌⊎◌, IfSome, IfNone};
ghost use mathlib.Core.List.{IsPrefix};
ghost use Rattle.nmvs_directory.specs.Known.{known};
ghost use Rattle.nmvs_directory.specs.Window.{Reads};

use crate::history::History;
use crate::users::Users;
use crate::{Look, Naming, Notice};
use left_right::ReadHandle;
use nmvs_identifier::Name;
use std::alloc::Allocator;
use std::marker::Model;

/// A user and the answer about it.
#[derive(Clone, Copy)]
pub(crate) struct Looked {
    pub user: Name,
    pub look: Look,
}

/// It shows the published users, by no fewer changes than it saw before or learned of. Contracts see those changes, oldest
/// first.
///
/// It keeps the answer about the last user, until it learns of more changes.
#[derive(Drop)]
pub struct Window<J: Naming, A: Allocator> {
    handle: ReadHandle<Users<J, A>, A>,
    seen: History<J>,
    last: Option<Looked>,
}

impl<J: Naming, A: Allocator> Model for Window<J, A> {
    ghost use Rattle.std.specs.Prelude.{List};
    ghost use Rattle.std.specs.Option.{ForSome};
    ghost use Rattle.nmvs_directory.specs.Window.{IsLooked};
    ghost use Rattle.nmvs_directory.specs.declared.change.Change.{Change};

    ghost Value = { List Change };

    ghost view = { λ w. w.seen };

    ghost invariant = { λ w. ForSome w.last (IsLooked w.seen) };
}

impl<J: Naming, A: Allocator> Window<J, A> {
    pub(crate) fn new(handle: ReadHandle<Users<J, A>, A>, seen: History<J>) -> Window<J, A>
        ensures { result ≡ seen }
    {
        Window {
            handle,
            seen,
            last: None,
        }
    }

    /// From now on the window sees no fewer changes than the notice has. It waits for nobody.
    pub fn learn(&mut self, notice: &Notice<J>)
        ensures longer { (self.new ≡ self.old) ⊎ (self.new ≡ notice.now) }
        ensures seen { IsPrefix self.old self.new }
        ensures told { IsPrefix notice.now self.new }
    {
        if !self.seen.covers(notice.history()) {
            self.seen = notice.history().again();
            self.last = None;
        }
    }

    /// The answer about a user. The last change that names the user decides, in a list that begins with all that the window
    /// saw or learned of. Or the answer is `Closed`, and the window has seen no more than before. It waits for nobody.
    pub fn look(&mut self, user: &Name) -> Look
        ensures { Reads self.old self.new user.now result }
    {
        if let Some(last) = &self.last {
            if last.user == *user {
                return last.look;
            }
        }
        match self.look_anew(user) {
            Some(look) => {
                self.keep(user, &look);
                look
            }
            None => Look::Closed,
        }
    }

    /// The answer about a user by the published users. None if they cannot be read, or lack a change that the window saw.
    fn look_anew(&mut self, user: &Name) -> Option<Look>
        ensures seen { IfSome result (λ look. IsPrefix self.old self.new × (look ≡ known self.new user.now)) }
        ensures closed { IfNone result (self.new ≡ self.old) }
    {
        let Some(users) = self.handle.enter() else {
            return None;
        };
        // Each published copy begins with all that was published before, but no clause of the guard says so.
        if !users.history().covers(&self.seen) {
            return None;
        }
        self.seen = users.history().again();
        self.last = None;
        Some(users.look(user))
    }

    /// Keeps the answer about a user.
    fn keep(&mut self, user: &Name, look: &Look)
        requires { look.now ≡ known self.old user.now }
        ensures { self.new ≡ self.old }
    {
        self.last = Some(Looked {
            user: *user,
            look: *look,
        });
    }
}
