//! The start of the server, from its options on.
//!
//! [`start`] does what the options say. `launch` has the phases of a start, from top to bottom: it listens, opens the
//! directory of users, recovers the trail and opens the repository. `recovered` makes the state of the files that
//! `nmvs_standby` reads, and `cluster` follows the server of another machine first. `nmvs_service` serves.
//!
//! `nmvs_serve` has `main`. `nmvs_operator` has options, users files and commands.
#![tactic(auto)]

mod cluster;
mod launch;
mod listening;
mod recovered;
mod starting;

pub use nmvs_engine::{CopyNotes, Dialer, EngineThreads};
pub use nmvs_recovery::Host;
pub use nmvs_service::{Fault, Outcome, outcome_of};
pub use starting::{Beside, start};
