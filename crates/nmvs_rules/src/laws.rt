//! Statements that follow from the rules. A function here does nothing: its contract is the law.
//!
//! The laws see an operation in its question and reply alone, so a wrong word of the rules breaks them.

mod acceptance;
mod answers;
mod packs;
mod repeats;
mod trails;

pub use acceptance::{decommissioning, handover, locking, reversion, theft, uploading};
pub use answers::{alerting, alerts, auditing, holders, verification};
pub use packs::{
    course, decommissioned_once, differs_for_ever, one_birth, recall_binds, supplied_once,
};
pub use repeats::{asked_again, once, repetition, states_are_current, untagged};
pub use trails::{locality, merging, old_trails, parts, placing, recording};
