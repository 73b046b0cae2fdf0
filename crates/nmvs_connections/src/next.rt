//! The next step of a connection after its turn.

/// The next step of a connection after its turn.
#[derive(Clone, Copy)]
pub(crate) enum Next {
    /// Its next turn comes.
    Again,
    /// It waits until the system reports it.
    WaitIo,
    /// Its answers wait until those of the turn are released.
    WaitRelease,
    /// Its answers wait, and are released before more are withheld.
    ReleaseNow,
    /// It is closed.
    Close,
}

impl Next {
    /// Whether its answers wait to be released.
    pub(crate) fn waits_for_release(self) -> bool {
        matches!(self, Next::WaitRelease | Next::ReleaseNow)
    }
}
