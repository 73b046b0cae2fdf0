//! The current records of packs, batches and product codes, kept in step with an audit trail.
//!
//! The rules of the repository look back over the whole trail. [`Tables`] keeps the results of this, so that no answer
//! has to look back. It has the trail in rows, the places of each pack's entries, and a link for each entry. It has
//! maps of batches and product codes in the order of insertion, and the list of each code's batches.
#![tactic(auto)]

mod batches;
mod codes;
mod counts;
mod cursor;
mod links;
mod listing;
mod packs;
mod tables;
mod writes;

pub use cursor::{Cursor, cursors_stay};
pub use nmvs_rows::HashKey;
pub use packs::PackRecord;
pub use tables::{Found, Tables};
