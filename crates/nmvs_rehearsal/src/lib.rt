//! The rehearsal: one session over an empty trail, with users of its own, to learn the repository by.
//!
//! [`rehearse_on_standard_input`] is the rehearsal of a program. [`rehearse`] is the session over any source and sink.
#![tactic(auto)]

mod rehearsal;
mod roster;
mod standard_input;

pub use rehearsal::{rehearse, rehearse_at_new_year};
pub use standard_input::rehearse_on_standard_input;
