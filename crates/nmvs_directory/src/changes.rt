//! The pending changes of a directory.
ghost use Rattle.std.specs.Prelude.{◌≡◌, ◌+◌, ◌<◌, ◌≤◌, ◌++◌, [], ◌∷◌, take, length, Some, None, OnOk, OnErr, IfSome, IfNone, MatchBool};

use crate::{Change, Effect};
use nmvs_identifier::Name;
use nmvs_rules::Enrolment;
use std::alloc::{AllocError, Allocator};

/// The changes of a directory that are not published yet.
#[derive(Drop)]
pub struct Changes<A: Allocator> {
    pub(crate) pending: Vec<Change, A>,
    /// The number of them, from the front, that were handed to a publication that was refused.
    pub(crate) entered: usize,
    ghost within: { entered ≤ length pending.items },
}

impl<A: Allocator> Changes<A> {
    ghost use Rattle.nmvs_directory.specs.Changes.{pending_changes, entered_changes, KeepsEntered, IsFull};

    pub(crate) fn new(alloc: A) -> Changes<A>
        ensures pending { pending_changes result ≡ [] }
        ensures entered { entered_changes result ≡ [] }
    {
        Changes {
            pending: Vec::new(alloc),
            entered: 0,
        }
    }

    fn add(&mut self, change: Change) -> Result<(), AllocError>
        ensures entered { KeepsEntered self.old self.new }
        ensures ok { OnOk result
            (pending_changes self.new ≡ pending_changes self.old ++ change ∷ []) }
        ensures err { OnErr result (pending_changes self.new ≡ pending_changes self.old) }
        ensures full { OnErr result (IsFull self.old) }
    {
        // For the proof alone: the type is named before the list is of it.
        let _effect: Effect = change.effect;
        self.pending.push(change)?;
        Ok(())
    }

    /// Adds one pending change: the user is enrolled so.
    ///
    /// # Errors
    ///
    /// There is no memory for one more change.
    pub fn enrol(&mut self, user: Name, enrolment: Enrolment) -> Result<(), AllocError>
        ensures entered { KeepsEntered self.old self.new }
        ensures ok { OnOk result (pending_changes self.new
            ≡ pending_changes self.old ++ record { user = user; effect = Effect.Enrol enrolment } ∷ []) }
        ensures err { OnErr result (pending_changes self.new ≡ pending_changes self.old) }
        ensures full { OnErr result (IsFull self.old) }
    {
        self.add(Change {
            user,
            effect: Effect::Enrol(enrolment),
        })
    }

    /// Adds one pending change: the user is suspended.
    ///
    /// # Errors
    ///
    /// There is no memory for one more change.
    pub fn suspend(&mut self, user: Name) -> Result<(), AllocError>
        ensures entered { KeepsEntered self.old self.new }
        ensures ok { OnOk result (pending_changes self.new
            ≡ pending_changes self.old ++ record { user = user; effect = Effect.Suspend } ∷ []) }
        ensures err { OnErr result (pending_changes self.new ≡ pending_changes self.old) }
        ensures full { OnErr result (IsFull self.old) }
    {
        self.add(Change {
            user,
            effect: Effect::Suspend,
        })
    }

    /// Adds one pending change: the user is removed.
    ///
    /// # Errors
    ///
    /// There is no memory for one more change.
    pub fn remove(&mut self, user: Name) -> Result<(), AllocError>
        ensures entered { KeepsEntered self.old self.new }
        ensures ok { OnOk result (pending_changes self.new
            ≡ pending_changes self.old ++ record { user = user; effect = Effect.Remove } ∷ []) }
        ensures err { OnErr result (pending_changes self.new ≡ pending_changes self.old) }
        ensures full { OnErr result (IsFull self.old) }
    {
        self.add(Change {
            user,
            effect: Effect::Remove,
        })
    }

    /// Whether a change is pending.
    pub fn has_pending(&self) -> bool
        ensures { MatchBool result (0 < length (pending_changes self.now))
            (pending_changes self.now ≡ []) }
    {
        !self.pending.is_empty()
    }

    /// The first change that was handed to no publication.
    pub(crate) fn next(&self) -> Option<Change>
        ensures some { IfSome result (λ change. self.now.entered < length (pending_changes self.now)) }
        ensures next { IfSome result (λ change. take (self.now.entered + 1) (pending_changes self.now)
            ≡ entered_changes self.now ++ change ∷ []) }
        ensures none { IfNone result (entered_changes self.now ≡ pending_changes self.now) }
    {
        Some(*self.pending.get(self.entered)?)
    }

    /// Notes that this change was handed to a publication.
    pub(crate) fn enter_next(&mut self)
        requires { self.old.entered < length (pending_changes self.old) }
        ensures pending { pending_changes self.new ≡ pending_changes self.old }
        ensures entered { self.new.entered ≡ self.old.entered + 1 }
    {
        self.entered += 1;
    }

    /// Notes that all were published.
    pub(crate) fn clear(&mut self)
        ensures pending { pending_changes self.new ≡ [] }
        ensures entered { entered_changes self.new ≡ [] }
    {
        self.entered = 0;
        self.pending.clear();
    }
}
