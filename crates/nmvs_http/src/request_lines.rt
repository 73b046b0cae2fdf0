//! The lines of a body.
ghost use Rattle.std.specs.Prelude.{◌≡◌, ◌∷◌, ◌++◌, [], IfOk};
ghost use Rattle.nmvs_http.specs.RequestLines as specs;

use bytes::{Bytes, BytesMut};
use std::alloc::{AllocError, Global};

/// A body, and LF after it if its last line has none.
pub(crate) fn whole_lines(alloc: Global, body: &Bytes) -> Result<Bytes, AllocError>
    ensures { IfOk result (λ lines. lines ≡ specs.whole_lines body.now) }
{
    if ends_line(body.as_slice()) {
        return body.clone();
    }
    match with_lf(alloc, body.as_slice())?.freeze() {
        Ok(lines) => Ok(lines),
        Err(_) => Err(AllocError),
    }
}

/// These bytes, and LF after them.
fn with_lf(alloc: Global, bytes: &[u8]) -> Result<BytesMut, AllocError>
    ensures { IfOk result (λ lines. lines.items ≡ bytes.now ++ 10 ∷ []) }
{
    let mut lines = BytesMut::new(alloc);
    lines.extend_from_slice(bytes)?;
    lines.extend_from_slice(b"\n")?;
    Ok(lines)
}

/// Whether no byte follows the last LF.
fn ends_line(body: &[u8]) -> bool
    ensures { result ≡ specs.ends_line body.now }
{
    match body.split_last() {
        Some((last, _)) => *last == b'\n',
        None => true,
    }
}
