ghost use Rattle.std.specs.Prelude.{◌≡◌, ◌==◌, length};

/// Lines that follow the text of an answer and are still to be fetched: the entries of an audit, or the batches of a
/// report.
pub trait LineList: Drop {
    ghost use Rattle.std.specs.Prelude.{ℕ, List};

    /// The text of those that are left, in order.
    ghost left: { Self → List ℕ };

    /// Whether none is left.
    fn is_empty(&self) -> bool
        ensures { result ≡ (length (left self.now) == 0) };

    /// The memory that the list keeps apart from itself, in bytes.
    fn memory(&self) -> usize;
}
