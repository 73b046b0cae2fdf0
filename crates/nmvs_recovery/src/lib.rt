//! The files that a start reads, and the marks and lines that a server writes next to its log.
//!
//! - [`publish_users`] and [`publish_kept`] publish the users of a users file, and those that the folder of the log keeps.
//! - [`imported`] gives the shards of an import. [`open_files`] opens the folder of a log ([`Paths`]), or makes it, and reads the
//!   log.
//! - [`mark`] notes how far the log is confirmed, and a [`MarkFile`] does so while it grows. A [`UsersFile`] is the store of the
//!   changes of the users: its mark is never above what a sync confirmed.
//! - [`kept_text`] and [`kept_file`] are the texts of a command and of another users file that the users file of the folder
//!   keeps. [`whole_lines`] is the part of it that a start reads.
//! - A [`LogStore`] is a log in a file, or elsewhere. [`Progress`] reports how far a long work is.
//!
//! This crate names neither the desk nor the engine of several machines: exports and the engine's logs stand above it.
#![tactic(auto)]

mod fault;
mod imports;
mod kept_lines;
mod log_files;
mod log_store;
mod marks;
mod paths;
mod progress;
mod rehearsal_packs;
mod run;
mod users;
mod users_file;
mod users_store;

pub use fault::FileFault;
pub use imports::imported;
pub use kept_lines::{kept_file, kept_text};
pub use log_files::{OpenFiles, OpenLog, open_files};
pub use log_store::LogStore;
pub use marks::{MarkFile, TAIL, mark, read_tail};
pub use paths::{Paths, lock, refused, write_text};
pub use progress::{Progress, Watched, Whole};
pub use run::{Host, Run};
pub use users::{publish_kept, publish_users, read_users, tell_users, try_users};
pub use users_file::{make_place, whole_lines};
pub use users_store::{OpenUsers, UsersFile};
