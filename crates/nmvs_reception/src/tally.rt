//! The number of flagged alerts of each user.
ghost use Rattle.std.specs.Prelude.{◌≡◌, OnOk};
ghost use Rattle.nmvs_reception.specs.Alerts.{FindsMost};

use indexmap::IndexMap;
use nmvs_identifier::Name;
use std::alloc::{AllocError, Allocator, Global};
use std::hash::{BuildHasherDefault, FoldHasher};
use std::marker::Model;

/// The premises and the number of flagged alerts of a user.
#[derive(Clone, Copy, PartialEq, Eq)]
pub struct Raised {
    /// The premises of the user at the last of them.
    pub premises: Name,
    /// The number of alerts.
    pub count: u64,
}

/// The users who have raised flagged alerts, in the order of their first. It takes memory for each such user.
#[derive(Drop)]
pub struct Tally<A: Allocator> {
    users: IndexMap<Name, Raised, BuildHasherDefault<FoldHasher>, A>,
}

impl<A: Allocator> Model for Tally<A> {
    ghost use Rattle.std.specs.Prelude.{List};
    ghost use Rattle.nmvs_identifier.specs.Name.{Name as TheName};
    ghost use Rattle.nmvs_reception.specs.declared.tally.Raised.{Raised as TheRaised};

    ghost Value = { List (TheName × TheRaised) };

    ghost view = { λ t. t.users.entries };
}

impl<A: Allocator + Copy> Tally<A> {
    ghost use Rattle.std.specs.Prelude.{[]};

    /// A tally without a user.
    pub fn new(alloc: A) -> Tally<A>
        ensures { result ≡ [] }
    {
        Tally {
            users: IndexMap::new(alloc),
        }
    }
}

impl<A: Allocator> Tally<A> {
    ghost use Rattle.std.specs.Prelude.{OnErr, IfOk};
    ghost use Rattle.nmvs_reception.specs.Alerts.{with_alert};

    /// Counts an alert of a user who asked at these premises.
    ///
    /// # Errors
    ///
    /// Memory for the user was refused. Nothing changes.
    pub fn note(&mut self, user: &Name, premises: &Name) -> Result<(), AllocError>
        ensures noted { OnOk result (self.new ≡ with_alert self.old user.now premises.now) }
        ensures refused { OnErr result (self.new ≡ self.old) }
    {
        let before = match self.users.get(user) {
            Some(raised) => raised.count,
            None => 0,
        };
        let raised = Raised {
            premises: *premises,
            count: before.saturating_add(1),
        };
        match self.users.insert(*user, raised) {
            Ok(_) => Ok(()),
            Err(_) => Err(AllocError),
        }
    }

    /// All its users, in its order.
    ///
    /// # Errors
    ///
    /// Memory for the list was refused.
    pub fn list(&self, alloc: Global) -> Result<Vec<(Name, Raised)>, AllocError>
        ensures { IfOk result (λ list. list.items ≡ self.now) }
    {
        let mut list = Vec::new(alloc);
        for place in 0..self.users.len() {
            match self.users.get_index(place) {
                Some((user, raised)) => list.push((*user, *raised))?,
                None => {}
            }
        }
        Ok(list)
    }
}

/// Keeps at most this number of users of a list: those who have raised most, most first.
///
/// # Errors
///
/// Memory to sort was refused.
pub fn keep_most(list: &mut Vec<(Name, Raised)>, most: usize) -> Result<(), AllocError>
    ensures { OnOk result (FindsMost most list.old.items list.new.items) }
{
    list.sort_by_key(|row| row.1.count)?;
    list.reverse();
    list.truncate(most);
    Ok(())
}
