//! The worked rows of the rules, and their tests; and callers of a history, whose contracts say what they have seen. These tests
//! alone are proved: those of `tests/` are only run. In proofs/ stand worked examples of the definitions: an input, and the value
//! that a definition gives.
#![tactic(auto)]

#[cfg(test)]
mod clerks;
#[cfg(test)]
mod exports;
#[cfg(test)]
mod history;
#[cfg(test)]
mod lines;
mod rows;
#[cfg(test)]
mod users;
#[cfg(test)]
mod values;

pub use rows::{EVENTS, Example, HANDOVERS, NEW_YEAR, OPERATIONS, RECALLS, VERIFICATIONS};
