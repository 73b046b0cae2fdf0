//! What is kept of a log that was judged.
ghost use Rattle.std.specs.Prelude.{◌≡◌, IfOk, IfSome, string_bytes};
ghost use Rattle.nmvs_alerts.specs.Witness as witness;

use hex::FromHex;
use std::alloc::{AllocError, Global};
use std::str;

/// The beginning of a log that was judged: its number of entries and of bytes, and the digest of these bytes (SHA-256 of FIPS 180-4).
#[derive(Clone, Copy)]
pub struct Witness {
    pub entries: usize,
    pub bytes: u64,
    pub digest: [u8; 32],
}

impl Witness {
    /// The line of the witness, with its LF.
    ///
    /// # Errors
    ///
    /// There is no memory for the line.
    pub fn line(&self, alloc: Global) -> Result<String, AllocError>
        ensures { IfOk result (λ line. string_bytes line ≡ witness.witness_line self.now) }
    {
        let (entries, bytes) = (self.entries, self.bytes);
        let digits = hex::encode(alloc, &self.digest)?;
        format!(in alloc; "[1,{entries},{bytes},\"{digits}\"]\n")
    }

    /// The witness of which this is the line, if it is one.
    ///
    /// # Errors
    ///
    /// There is no memory for the line.
    pub fn read(alloc: Global, line: &[u8]) -> Result<Option<Witness>, AllocError>
        ensures { IfOk result (λ read. IfSome read (λ it. line.now ≡ witness.witness_line it)) }
    {
        let Some(guessed) = guess(line) else {
            return Ok(None);
        };
        let written = guessed.line(alloc)?;
        if written.as_bytes() == line {
            Ok(Some(guessed))
        } else {
            Ok(None)
        }
    }
}

/// What a line says if it is one of a witness.
fn guess(line: &[u8]) -> Option<Witness> {
    let items = str::from_utf8(line).ok()?.strip_prefix("[1,")?;
    let (entries, items) = items.split_once(',')?;
    let (bytes, items) = items.split_once(',')?;
    let (digits, _) = items.strip_prefix("\"")?.split_at_checked(64)?;
    Some(Witness {
        entries: entries.parse().ok()?,
        bytes: bytes.parse().ok()?,
        digest: <[u8; 32] as FromHex>::from_hex(digits).ok()?,
    })
}
