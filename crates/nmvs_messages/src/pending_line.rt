//! The kept part of a line that was begun.
ghost use Rattle.std.specs.Prelude.{◌≡◌, ◌++◌, ◌==◌, [], length};
ghost use Rattle.nmvs_messages.specs.PendingLines.{kept_part};

use crate::LONGEST_LINE;
use arrayvec::ArrayVec;
use std::marker::Model;

/// The most bytes of a line that are kept. One more than a line may have shows that it is too long.
pub(crate) const KEPT: usize = LONGEST_LINE + 1;

/// The kept part of a line whose LF has not come.
#[derive(Drop)]
pub struct PendingLine {
    bytes: ArrayVec<u8, KEPT>,
}

impl Model for PendingLine {
    ghost use Rattle.std.specs.Prelude.{ℕ, List};

    ghost Value = { List ℕ };

    ghost view = { λ p. p.bytes.items };
}

impl PendingLine {
    /// A line without a byte.
    pub fn new() -> PendingLine
        ensures { result ≡ [] }
    {
        PendingLine {
            bytes: ArrayVec::new(),
        }
    }

    /// Whether no byte is kept.
    pub fn is_empty(&self) -> bool
        ensures { result ≡ (length self.now == 0) }
    {
        self.bytes.is_empty()
    }

    /// The kept bytes.
    pub fn as_slice(&self) -> &[u8]
        ensures { result.now ≡ self.now }
    {
        self.bytes.as_slice()
    }

    /// Adds these bytes, as far as there is room.
    pub fn extend(&mut self, bytes: &[u8])
        ensures { self.new ≡ kept_part (self.old ++ bytes.now) }
    {
        let count = self.bytes.remaining_capacity().min(bytes.len());
        self.bytes.try_extend_from_slice(&bytes[..count]).unwrap();
    }

    /// Begins the next line.
    pub fn clear(&mut self)
        ensures { self.new ≡ [] }
    {
        self.bytes.clear();
    }
}
