//! The digest in the file next to its own.
use crate::{DigestFault, read_digest};
use std::alloc::Global;
use std::fs;
use std::io::{ErrorKind, Read};
use std::path::Path;
use std::rt::Files;

/// More bytes than the line for any file name has (own): a name has up to 255 bytes.
const MOST_BYTES: u64 = 4096;

/// The digest in `PATH.sha256` of the file at this path, if there is such a file.
///
/// # Errors
///
/// There is no memory, `PATH.sha256` cannot be read, or it is not the one line for a file of this name. The line names
/// the file without its folders.
pub fn stored_digest<R: Files>(
    rt: &R,
    alloc: Global,
    path: &str,
) -> Result<Option<[u8; 32]>, DigestFault> {
    let beside = format!(in alloc; "{path}.sha256")?;
    let file = match fs::open(rt, &beside) {
        Ok(file) => file,
        Err(error) if error.kind() == ErrorKind::NotFound => return Ok(None),
        Err(_) => return Err(DigestFault::Unread),
    };
    let mut text = Vec::new(alloc);
    match file.take(MOST_BYTES).read_to_end(&mut text) {
        Ok(_count) => {}
        Err(error) if error.kind() == ErrorKind::OutOfMemory => return Err(DigestFault::Memory),
        Err(_) => return Err(DigestFault::Unread),
    }
    match read_digest(alloc, &text, file_name(path))? {
        Some(sum) => Ok(Some(sum)),
        None => Err(DigestFault::Malformed),
    }
}

/// The name of the file at this path in the line of its digest: without its folders (own).
pub fn file_name(path: &str) -> &str {
    Path::new(path).file_name().unwrap_or(path)
}
