//! Lines cut off from bytes.
ghost use Rattle.std.specs.Prelude.{◌≡◌, ◌++◌, ◌∷◌, IfSome, IfNone};
ghost use Rattle.nmvs_stream.specs.InputLines.{HasNoLf};

use memchr::memchr;

/// The bytes before the first LF, and the bytes after it. Bytes without LF have no line.
pub fn cut_line(bytes: &[u8]) -> Option<(&[u8], &[u8])>
    ensures cut { IfSome result (λ cut. bytes.now ≡ cut.0.now ++ 10 ∷ cut.1.now) }
    ensures whole { IfSome result (λ cut. HasNoLf cut.0.now) }
    ensures none { IfNone result (HasNoLf bytes.now) }
{
    let lf = memchr(b'\n', bytes)?;
    Some((&bytes[..lf], &bytes[lf + 1..]))
}
