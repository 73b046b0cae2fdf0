//! The threads of a server among several machines.
use crate::{CopyNotes, Dialer};

/// The work of the threads next to a server among several machines. No answer waits for it.
#[derive(Clone, Copy)]
pub struct EngineThreads<'t> {
    /// Opens the connections to the engine.
    pub dialer: &'t Dialer,
    /// Notes how far the file of this machine has the log.
    pub notes: &'t CopyNotes,
}

impl EngineThreads<'_> {
    /// Ends what they run.
    pub fn end(&self) {
        self.dialer.end();
        self.notes.end();
    }
}
