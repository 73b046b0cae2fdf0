//! Texts that are gathered in blocks before they are written.
ghost use Rattle.std.specs.Prelude.{ℕ, List, OnOk};
ghost use Rattle.nmvs_stream.specs.Sink.{Taken};
ghost use Rattle.nmvs_inspect.specs.Gathering.{IsGathered};

use crate::AnswerFault;
use nmvs_stream::{Sink, deliver};

/// How many bytes are gathered before they are written.
const BLOCK: usize = 65_536;

/// Writes a block once it is large, and empties it.
pub(crate) fn write_full<W: Sink>(block: &mut Vec<u8>, sink: &mut W) -> Result<(), AnswerFault>
    ensures { (start : Taken) → (text : List ℕ) → IsGathered start (W.taken sink.old) block.old.items text
        → OnOk result (IsGathered start (W.taken sink.new) block.new.items text) }
{
    if block.len() >= BLOCK {
        deliver(sink, block)?;
        block.clear();
    }
    Ok(())
}
