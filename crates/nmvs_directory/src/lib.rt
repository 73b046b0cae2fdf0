//! The users of a repository. One registrar enrols, suspends and removes them. Windows look them up with no lock and no
//! wait, each in a thread of its own if need be.
//!
//! A [`Directory`] is made, gets its name and is opened, which gives the [`Registrar`] and the [`Window`]s. The registrar's
//! changes are pending until it publishes. A publication gives a [`Notice`]. A window that learns of it answers by that
//! publication or a later one from then on.
//!
//! ```text
//! let (mut registrar, mut windows) = directory.open::<J, _, _>(rt, alloc, 2)?;
//! registrar.changes.enrol(user, enrolment)?;
//! let notice = registrar.publish()?;
//! for window in windows.iter_mut() {
//!     window.learn(&notice);
//!     assert_eq!(rt; window.look(&user), Look::Known(enrolment));
//! }
//! ```
//!
//! This crate judges no question, and keeps nothing beyond the end of the process.
#![tactic(auto)]

mod change;
mod changes;
mod directory;
mod history;
mod law;
mod look;
mod naming;
mod notice;
mod registrar;
mod standing;
mod users;
mod window;

pub use change::{Change, Effect};
pub use changes::Changes;
pub use directory::{Directory, DirectoryFault, MOST_WINDOWS};
pub use look::Look;
pub use naming::Naming;
pub use notice::Notice;
pub use registrar::Registrar;
pub use standing::Standing;
pub use window::Window;
