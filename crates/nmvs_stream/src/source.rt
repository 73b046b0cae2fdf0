ghost use Rattle.std.specs.Prelude.{◌<◌, ℕ, List, Option, None, length, IfOk, OnErr};
ghost use Rattle.std.specs.Io.KnownBytes.{ReadConsumes};
ghost use Rattle.nmvs_stream.specs.Source.{Told, Gives, FailsToGive};

use crate::failed::Failed;

/// Gives bytes. Contracts see which bytes it gave, the number of reads, whether its end was read, and whether a read
/// failed.
pub trait Source {
    ghost told: { Self → Told };

    // The bytes that are still to come, if they are known.
    ghost left: { Self → Option (List ℕ) } = { λ _. None };

    /// Reads some bytes into the front of the buffer, and returns their number. 0 is the end.
    ///
    /// # Errors
    ///
    /// The read failed or was interrupted, and no byte was given.
    fn read(&mut self, buffer: &mut [u8]) -> Result<usize, Failed>
        requires { 0 < length buffer.old }
        ensures known { ReadConsumes (left self.old) (left self.new) result buffer.new }
        ensures ok { IfOk result (Gives (told self.old) (told self.new) buffer.new) }
        ensures err { OnErr result (FailsToGive (told self.old) (told self.new)) };
}
