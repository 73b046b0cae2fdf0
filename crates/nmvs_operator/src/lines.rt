//! The lines of an operator.
ghost use Rattle.std.specs.Prelude.{MatchResult};
ghost use Rattle.nmvs_operator.specs.Commands.{ReadsLine, ReadsEnd};

use nmvs_messages::PendingLine;
use nmvs_stream::{Failed, Source};

/// The most reads that are made of a line: more than any has bytes.
const MOST_READS: u64 = u64::MAX;

/// The kept part of the next line of a source. It reads no byte after the line's LF. A console hands its lines over
/// from memory, so reading them byte by byte costs little.
///
/// # Errors
///
/// The input is at its end: the kept part of the line that it began.
pub(crate) fn next_line<I: Source>(source: &mut I) -> Result<PendingLine, PendingLine>
    ensures { MatchResult result (λ line. ReadsLine (I.told source.old) (I.told source.new) line)
        (λ begun. ReadsEnd (I.told source.old) (I.told source.new) begun) }
{
    let mut line = PendingLine::new();
    let mut byte = [0];
    for _ in 0..MOST_READS {
        match source.read(&mut byte) {
            Err(Failed) => return Err(line),
            Ok(0) => return Err(line),
            Ok(_) => {
                if byte[0] == b'\n' {
                    return Ok(line);
                }
                line.extend(&byte);
            }
        }
    }
    Err(line)
}
