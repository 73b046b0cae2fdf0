//! Texts delivered to sinks.
ghost use Rattle.std.specs.Prelude.{◌≡◌, OnOk, OnErr};
ghost use Rattle.nmvs_stream.specs.Delivery.{Writes, Delivers, DeliversPart};

use crate::failed::Failed;
use crate::sink::Sink;

/// Writes all of the text, and leaves the flush for later.
///
/// # Errors
///
/// A write failed. Some of the text may have been taken, from the front.
pub fn write_all<W: Sink>(sink: &mut W, text: &[u8]) -> Result<(), Failed>
    ensures ok { OnOk result (Writes (W.taken sink.old) (W.taken sink.new) text.now) }
    ensures err { OnErr result (DeliversPart (W.taken sink.old) (W.taken sink.new) text.now) }
{
    let mut rest = text;
    while !rest.is_empty() {
        let count = sink.write(rest)?;
        rest = &rest[count..];
    }
    Ok(())
}

/// Writes all of the text, and flushes it.
///
/// # Errors
///
/// A write or the flush failed. Some of the text may have been taken, from the front.
pub fn deliver<W: Sink>(sink: &mut W, text: &[u8]) -> Result<(), Failed>
    ensures ok { OnOk result (Delivers (W.taken sink.old) (W.taken sink.new) text.now) }
    ensures err { OnErr result (DeliversPart (W.taken sink.old) (W.taken sink.new) text.now) }
{
    write_all(sink, text)?;
    sink.flush()
}
