//! The start of a server, from its files or from the log of another server that it follows.
//!
//! - [`prepare`] reads the files of a start: the users, and the shards of an import or of the log ([`Ready`]).
//! - [`stand_by`] follows the log of a server of another machine, until this one owns it ([`Followed`]).
//!   [`prepare_followed`] goes on from that log.
//!
//! While a server follows, it answers the operator alone. This crate names no desk: its caller opens a server with the
//! values that it returns.
#![tactic(auto)]

mod directions;
mod following;
mod member;
mod preparation;
mod standing_by;

pub use member::Member;
pub use preparation::{LogFiles, Ready, TrailLog, prepare, prepare_followed};
pub use standing_by::{Followed, Means, stand_by};
