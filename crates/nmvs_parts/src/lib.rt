//! The check of an export in parts: each takes the lines of the product codes whose number has one remainder, in memory for
//! those alone. [`parts_laws`] says that all parts together find what one check of the whole finds.
#![tactic(auto)]

mod examination;
mod laws;
mod part;

pub use examination::{PartImport, examine_part};
pub use laws::parts_laws;
pub use part::Part;
