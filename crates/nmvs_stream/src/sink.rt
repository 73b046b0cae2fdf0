ghost use Rattle.std.specs.Prelude.{ℕ, List, Option, None, IfOk, OnOk, OnErr};
ghost use Rattle.std.specs.Io.KnownBytes.{WriteAppends, Keeps};
ghost use Rattle.nmvs_stream.specs.Sink.{Taken, Takes, Flushes, FailsToTake};

use crate::failed::Failed;

/// Takes bytes. Contracts see which bytes it took, whether all of them were flushed, and whether a write or a flush
/// failed.
pub trait Sink {
    ghost taken: { Self → Taken };

    // The bytes that it holds, if they are known.
    ghost held: { Self → Option (List ℕ) } = { λ _. None };

    /// Takes some bytes from the front of the buffer, at least one unless it is empty, and returns their number. It takes
    /// none of an empty buffer, which is no failure.
    ///
    /// # Errors
    ///
    /// The write failed or was interrupted, and no byte was taken.
    fn write(&mut self, buffer: &[u8]) -> Result<usize, Failed>
        ensures known { WriteAppends (held self.old) (held self.new) result buffer.now }
        ensures ok { IfOk result (Takes (taken self.old) (taken self.new) buffer.now) }
        ensures err { OnErr result (FailsToTake (taken self.old) (taken self.new)) };

    /// Flushes all bytes that it took.
    ///
    /// # Errors
    ///
    /// The flush failed or was interrupted.
    fn flush(&mut self) -> Result<(), Failed>
        ensures known { Keeps (held self.old) (held self.new) }
        ensures ok { OnOk result (Flushes (taken self.old) (taken self.new)) }
        ensures err { OnErr result (FailsToTake (taken self.old) (taken self.new)) };
}
