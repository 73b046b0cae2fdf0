//! The desks of the server.
//!
//! [`ClerkDesk`] answers lines by a clerk of a repository, at the moments of a [`Clock`]. With a [`JournalDesk`] each answer
//! waits until the log has confirmed the entries on which it rests. [`Alerts`] counts the flagged alerts of each user.
//! [`Opening`] has the values with which a repository and its clerks are opened. [`laws`] has the statements on who may ask, and
//! on the order in which a question is refused.
#![tactic(auto)]

mod alerts;
mod clock;
mod desk;
mod journal_desk;
mod latest_notice;
pub mod laws;
mod opening;
mod tally;

pub use alerts::Alerts;
pub use clock::{Clock, ProgramClock};
pub use desk::ClerkDesk;
pub use journal_desk::JournalDesk;
pub use opening::{Opened, Opening};
pub use tally::{Raised, Tally, keep_most};
