//! The registrar of the users.
ghost use Rattle.std.specs.Prelude.{◌≡◌, ◌+◌, ◌<◌, ◌≤◌, ◌++◌, [], ◌∷◌, take, length, slice_get, fold, MatchResult, IfOk, IsOk};
ghost use Rattle.left_right.specs.Handles;
ghost use Rattle.nmvs_directory.specs.Changes.{entered_changes};
ghost use Rattle.nmvs_directory.specs.Known.{known};
ghost use Rattle.nmvs_directory.specs.Users.{users_of};

use crate::history::{History, Tail};
use crate::users::Users;
use crate::{Change, Changes, Look, Naming, Notice, Standing};
use left_right::{Absorb, WriteHandle};
use nmvs_identifier::Name;
use std::alloc::{AllocError, Allocator};
use std::sync::Wait;

/// More changes than any memory holds.
const MOST: u64 = 1 << 60;

/// It alone changes the users of a directory, and publishes the changes. It has the end of the directory's list of
/// changes: a change joins the list when it is handed to a publication, and not earlier.
#[derive(Drop)]
pub struct Registrar<J: Naming, R: Wait + Drop, A: Allocator>
where
    Users<J, A>: Absorb<History<J>, State = [Change; 0]>,
{
    /// The pending changes. To enrol, suspend or remove a user waits for nobody.
    pub changes: Changes<A>,
    tail: Tail<J>,
    /// The list up to the last change that is published.
    published: History<J>,
    /// The list up to the last change that the writer has.
    handed: History<J>,
    /// The whole list.
    list: History<J>,
    writer: WriteHandle<Users<J, A>, History<J>, R, A>,
    ghost shown: { Handles.published writer ≡ published },
    ghost has: { fold (λ changes longer. longer) (Handles.published writer) (Handles.pending writer) ≡ handed },
    ghost entered: { list ≡ published ++ entered_changes changes },
    ghost ahead: { length list ≤ length handed → list ≡ handed },
}

impl<J: Naming, R: Wait + Drop, A: Allocator> Registrar<J, R, A> {
    ghost use Rattle.nmvs_directory.specs.Registrar.{published, pending};

    pub(crate) fn new(
        tail: Tail<J>,
        alloc: A,
        writer: WriteHandle<Users<J, A>, History<J>, R, A>,
        empty: History<J>,
    ) -> Registrar<J, R, A>
        requires { (Handles.published writer ≡ []) × (Handles.pending writer ≡ []) × (empty ≡ []) }
        ensures published { published result ≡ [] }
        ensures pending { pending result ≡ [] }
    {
        Registrar {
            changes: Changes::new(alloc),
            tail,
            published: empty.again(),
            handed: empty.again(),
            list: empty,
            writer,
        }
    }

    /// Hands the end of the list to the writer, if the writer lacks it. It fails only if the writer has no memory.
    fn hand_last(&mut self) -> Result<(), AllocError>
        ensures published { published self.new ≡ published self.old }
        ensures changes { self.new.changes ≡ self.old.changes }
        ensures list { self.new.list ≡ self.old.list }
        ensures handed { IfOk result (λ _. self.new.handed ≡ self.new.list) }
    {
        if self.handed.len() < self.list.len() {
            if self.writer.append(self.list.again()).is_err() {
                return Err(AllocError);
            }
            self.handed = self.list.again();
        }
        Ok(())
    }

    /// Adds the pending changes to the list one by one, and hands each to the writer. It fails only if there is no memory.
    fn hand_over(&mut self) -> Result<(), AllocError>
        ensures published { published self.new ≡ published self.old }
        ensures pending { pending self.new ≡ pending self.old }
        ensures handed { IfOk result (λ _. self.new.handed ≡ self.new.list) }
        ensures entered { IfOk result (λ _. entered_changes self.new.changes ≡ pending self.old) }
    {
        self.hand_last()?;
        while let Some(change) = self.changes.next() {
            self.enter(change)?;
            self.hand_last()?;
        }
        Ok(())
    }

    /// Adds to the list the first change that was handed to no publication.
    fn enter(&mut self, change: Change) -> Result<(), AllocError>
        requires handed { self.old.handed ≡ self.old.list }
        requires some { self.old.changes.entered < length (pending self.old) }
        requires next { take (self.old.changes.entered + 1) (pending self.old)
            ≡ entered_changes self.old.changes ++ change ∷ [] }
        ensures published { published self.new ≡ published self.old }
        ensures pending { pending self.new ≡ pending self.old }
        ensures entered { IfOk result (λ _.
            self.new.changes.entered ≡ self.old.changes.entered + 1) }
    {
        if self.list.len() >= MOST {
            return Err(AllocError);
        }
        self.list = self.list.add(&self.tail, change).ok_or(AllocError)?;
        self.changes.enter_next();
        Ok(())
    }

    /// Brings the copy that windows no longer read up to date, so that the next publication adds only its own changes. If
    /// there is no memory for that, the next publication does it. It waits for windows that are looking.
    fn catch_up(&mut self)
        requires shown { Handles.pending self.old.writer ≡ [] }
        ensures published { published self.new ≡ published self.old }
        ensures pending { pending self.new ≡ pending self.old }
    {
        let _refused = self.writer.publish();
    }

    /// Publishes all pending changes at once, and waits for windows that are looking. If none is pending, it does nothing,
    /// and the notice has the changes that were published earlier.
    ///
    /// # Errors
    ///
    /// There is no memory to publish them. None is published, and all stay pending.
    pub fn publish(&mut self) -> Result<Notice<J>, AllocError>
        ensures published { MatchResult result
            (λ _. published self.new ≡ published self.old ++ pending self.old)
            (λ _. published self.new ≡ published self.old) }
        ensures pending { MatchResult result (λ _. pending self.new ≡ [])
            (λ _. pending self.new ≡ pending self.old) }
        ensures told { IfOk result (λ notice. notice ≡ published self.new) }
        ensures succeeds { pending self.old ≡ [] → IsOk result }
    {
        if self.changes.has_pending() {
            self.hand_over()?;
            self.writer.publish()?;
            self.published = self.list.again();
            self.changes.clear();
            self.catch_up();
        }
        Ok(Notice::new(self.published.again()))
    }

    /// The number of users that the published changes name.
    pub fn user_count(&self) -> usize
        ensures { result ≡ length (users_of (published self.now)) }
    {
        self.writer.published().count()
    }

    /// The user at this place, counted from 0, and its standing; `None` after the last. The order is that in which the
    /// published changes first named them.
    pub fn user(&self, place: usize) -> Option<(Name, Standing)>
        ensures { result ≡ slice_get (users_of (published self.now)) place }
    {
        self.writer.published().user(place)
    }

    /// The answer about a user, by the last published change that names it. It is never `Closed`, and waits for nobody.
    pub fn look(&self, user: &Name) -> Look
        ensures { result ≡ known (published self.now) user.now }
    {
        self.writer.published().look(user)
    }

    /// Ends the directory. Pending changes are lost, and the later answers of its windows are left open. It waits for
    /// windows that are looking.
    pub fn close(self) {
        let Registrar { writer, .. } = self;
        drop(writer.take());
    }
}
