//! SHA-256 digests of files (FIPS 180-4). Each stands in a file next to its own, in the line that `sha256sum` writes.
#![tactic(auto)]

mod digest_fault;
mod digested;
mod lines;
mod stored;

pub use digest_fault::DigestFault;
pub use digested::Digested;
pub use lines::{digest_line, read_digest};
pub use stored::{file_name, stored_digest};
