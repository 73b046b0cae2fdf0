//! The service of an open server to its users and its operator.
//!
//! [`open_repository`] serves by shards and users that a start recovered: over connections, with a desk of `nmvs_reception`
//! for each worker, or one session over the console. `workers` has the threads, and `service` carries out the operator's
//! commands. [`Config`] is the configuration of a server, and `Server` the state that its workers share.
//!
//! A start hands over the log that it read as a [`LogStart`]. A [`TrailFile`] marks each of its blocks: a mark is never above what a
//! sync confirmed. `closing` marks, exports and settles the trail at the end.
#![tactic(auto)]

mod announcements;
mod closing;
mod confirming;
mod fault;
mod server;
mod service;
mod serving;
mod session;
mod timed_file;
mod trail_file;
mod watching;
mod workers;

pub use fault::{Fault, Outcome, outcome_of};
pub use server::Config;
pub use serving::{LogStart, open_repository};
pub use trail_file::{LogStore, TrailFile};
