//! The connections of a server to the engine that keeps the log on several machines, and what it does over them as the owner.
//!
//! - A [`Dialer`] opens the connections ([`Wire`]), in a thread of its own.
//! - A [`CopiedLog`] is a log in the engine whose confirmed bytes are copied to a file of this machine ([`LocalCopy`]). Another
//!   thread ([`CopyNotes`]) puts it on the disk, and notes in a [`PlaceFile`] up to which place the file has the log
//!   ([`noted_place`]).
//! - A [`Turn`] trims the log, and ends once the server gives it up.
#![tactic(auto)]

mod copy_notes;
mod copy_place;
mod dialer;
mod local_copy;
mod threads;
mod turn;
mod wire;

pub use copy_notes::{CopyNotes, NotedFiles};
pub use copy_place::{BEGIN, PlaceFile, noted_place};
pub use dialer::Dialer;
pub use local_copy::{CopiedLog, CopyBeside, EngineLog, LocalCopy, UsersLog};
pub use threads::EngineThreads;
pub use turn::Turn;
pub use wire::Wire;
