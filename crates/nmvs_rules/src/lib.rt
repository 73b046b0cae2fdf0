//! The rules of the repository: the questions that may be asked, and the reply that the Regulation gives on a trail.
//!
//! A [`Put`] is a [`Question`] as an [`Actor`] puts it at a moment. [`decide`] gives the [`Reply`] from the [`Facts`],
//! the few things that it rests on: `decide(&facts, &put)`. Its contract says that this is the reply of the definitions
//! in `specs` on every trail that has these facts. An [`Entry`] is a put with its reply, and a trail is a list of them,
//! oldest first. [`laws`] has the statements that follow from the rules.
//!
//! An [`Enrolment`] says until when a user may ask, and what a holder may upload. No reply rests on it: the desk judges it before
//! a question is put.
//!
//! This crate keeps no trail and finds no facts in one: `nmvs_tables` and `nmvs_shard` do. It knows no texts of lines
//! or replies.
//!
//! "Own" after a rule says that the Regulation leaves the point open and this project chose. The own status of a pack,
//! [`OwnStatus`], is another thing: the status that the pack has by itself, whatever its batch.
#![tactic(auto)]

mod actor;
mod admission;
mod alerting;
mod batch_lock;
mod batch_question;
mod cause;
mod circulation;
mod decision;
mod enrolment;
mod entry;
mod facts;
mod handing_over;
mod holding;
pub mod laws;
mod onward;
mod own_status;
mod pack_question;
mod printed;
mod put;
mod question;
mod reason;
mod refusal;
mod repeat;
mod reply;
mod reversion;
mod role;

pub use actor::Actor;
pub use admission::{may, may_report};
pub use batch_lock::BatchLock;
pub use batch_question::BatchQuestion;
pub use cause::Cause;
pub use circulation::onward_of;
pub use decision::decide;
pub use enrolment::Enrolment;
pub use entry::Entry;
pub use facts::{BatchRecord, Counts, Facts, Known, Mark};
pub use onward::Onward;
pub use own_status::OwnStatus;
pub use pack_question::PackQuestion;
pub use printed::Printed;
pub use put::Put;
pub use question::Question;
pub use reason::Reason;
pub use refusal::Refusal;
pub use repeat::Repeat;
pub use reply::Reply;
pub use role::Role;
