//! Commands and their answers as the log shows them.
ghost use Rattle.nmvs_stream.specs.InputLines.{HasNoLf};

use memchr::memrchr;
use std::fmt;

/// Bytes of a line as the log shows them: in quotes. Quotes, backslashes and bytes that are no printable ASCII
/// character are escaped.
#[derive(Clone, Copy)]
pub(crate) struct Escaped<'l>(pub(crate) &'l [u8]);

impl<'l> fmt::Display for Escaped<'l> {
    fn fmt<W: fmt::Write>(&self, f: &mut fmt::Formatter<W>) -> fmt::Result {
        write!(f, "\"{}\"", self.0.escape_ascii())
    }
}

/// The last line of a text, without its LF.
pub(crate) fn last_line(text: &[u8]) -> &[u8]
    ensures { HasNoLf result.now }
{
    let lines = text.strip_suffix(b"\n").unwrap_or(text);
    match memrchr(b'\n', lines) {
        Some(lf) => &lines[lf + 1..],
        None => lines,
    }
}
