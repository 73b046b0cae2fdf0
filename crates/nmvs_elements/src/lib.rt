//! Scans of packs: the element strings of GS1 in the two-dimensional code of a pack.
//!
//! [`read_scan`] reads a scan of the code. It takes application identifiers 01, 21, 10 and 17, each once and in any order,
//! and the national number if a [`National`] asks for it. It refuses everything else, and never guesses: a scan that lost
//! a separator is read as no other pack.
//!
//! This crate knows no other symbologies, and no other application identifiers.
#![tactic(auto)]

mod elements;
mod fault;
mod found;
mod front;
mod identifiers;
mod laws;
mod scan;
mod values;

pub use elements::{Elements, NationalNumber};
pub use fault::ScanFault;
pub use identifiers::{ApplicationIdentifier, National};
pub use laws::scans_are_read;
pub use scan::{LONGEST_SCAN, read_scan};
