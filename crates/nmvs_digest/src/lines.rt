//! The line with a digest.
ghost use Rattle.std.specs.Prelude.{◌≡◌, ◌≢◌, ℕ, List, length, IfOk, IfSome, IfNone, string_bytes};
ghost use Rattle.hex.specs.Hex.{IsBytes};
ghost use Rattle.nmvs_digest.specs.Digests.{digest_line as line_of};

use hex::FromHex;
use std::alloc::{AllocError, Global};

/// The line with the digest of a file of this name, with its LF, as `sha256sum` writes it.
///
/// # Errors
///
/// There is no memory for the line.
pub fn digest_line(alloc: Global, sum: &[u8; 32], name: &str) -> Result<String, AllocError>
    ensures { IfOk result (λ line. string_bytes line ≡ line_of sum.now name.now) }
{
    let digits = hex::encode(alloc, sum)?;
    format!(in alloc; "{digits}  {name}\n")
}

/// Reads the digest of a file of this name, if the text is the line for it.
///
/// # Errors
///
/// There is no memory for the line.
pub fn read_digest(alloc: Global, text: &[u8], name: &str) -> Result<Option<[u8; 32]>, AllocError>
    ensures told { IfOk result (λ read. IfSome read (λ sum. text.now ≡ line_of sum name.now)) }
    ensures none { IfOk result (λ read. IfNone read
        ((sum : List ℕ) → length sum ≡ 32 → IsBytes sum → text.now ≢ line_of sum name.now)) }
{
    let Some((digits, _)) = text.split_at_checked(64) else {
        return Ok(None);
    };
    let Ok(sum) = <[u8; 32] as FromHex>::from_hex(digits) else {
        return Ok(None);
    };
    let line = digest_line(alloc, &sum, name)?;
    if line.as_bytes() == text {
        Ok(Some(sum))
    } else {
        Ok(None)
    }
}
