//! Connections to an engine.
ghost use Rattle.std.specs.Prelude.{◌≡◌, ◌≤◌, ◌++◌, [], ℕ, List, length, take, IfOk, OnOk};

/// The connection failed. Nothing is known of the bytes that were under way.
#[derive(Clone, Copy)]
pub struct Broken;

/// A connection to an engine. Contracts see the bytes that it carried since it was opened.
pub trait Connection {
    /// The bytes that were sent.
    ghost sent: { Self → List ℕ };

    /// The bytes that came.
    ghost heard: { Self → List ℕ };

    /// Opens a new connection in place of this one. It may wait for a while.
    ///
    /// # Errors
    ///
    /// There is no new connection.
    fn reopen(&mut self) -> Result<(), Broken>
        ensures sent { OnOk result (sent self.new ≡ []) }
        ensures heard { OnOk result (heard self.new ≡ []) };

    /// Sends all of the bytes.
    ///
    /// # Errors
    ///
    /// The connection failed. It may have sent a part of them.
    fn send(&mut self, bytes: &[u8]) -> Result<(), Broken>
        ensures sent { OnOk result (sent self.new ≡ sent self.old ++ bytes.now) }
        ensures heard { OnOk result (heard self.new ≡ heard self.old) };

    /// Waits for some bytes, and puts them at the front of the buffer. Returns their number. 0 is the end.
    ///
    /// # Errors
    ///
    /// The connection failed, or nothing came for a while.
    fn receive(&mut self, buffer: &mut [u8]) -> Result<usize, Broken>
        ensures fits { IfOk result (λ count. count ≤ length buffer.new) }
        ensures sent { OnOk result (sent self.new ≡ sent self.old) }
        ensures heard { IfOk result (λ count. heard self.new ≡ heard self.old ++ take count buffer.new) };
}
