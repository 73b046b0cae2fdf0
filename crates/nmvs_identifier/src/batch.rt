//! Batch numbers: application identifier 10 (GS1 General Specifications, section 3.4.1).
ghost use Rattle.std.specs.Prelude.{◌≡◌, ℕ, ◌<◌, ◌≤◌, ◌↔◌, IsTrue, IsOk, IfOk, IsErrOf, length, false};
ghost use Rattle.std.specs.List.{list_all};
ghost use Rattle.nmvs_identifier.specs.Characters.{is_in_set_82};
ghost use Rattle.nmvs_identifier.specs.Batch.{is_batch};
ghost use Rattle.nmvs_identifier.specs.Texts.{longest_text};

use crate::set_82::{Set82Fault, read_set_82};
use crate::short_text::{LONGEST_TEXT, ShortText};
use std::marker::Model;

/// The number of a batch: 1 to 20 characters of the GS1 character set 82 (section 7.11; Article 4 of the Regulation).
///
/// Order, equality and hash are those of its text.
#[derive(Clone, Copy, PartialEq, Eq, PartialOrd, Ord, Hash)]
pub struct Batch {
    text: ShortText<LONGEST_TEXT>,
}

impl Model for Batch {
    ghost use Rattle.std.specs.Prelude.{IsTrue};
    ghost use Rattle.nmvs_identifier.specs.Texts.{Text};
    ghost use Rattle.nmvs_identifier.specs.Batch.{is_batch};

    ghost Value = { Text };

    ghost view = { λ s. s.text };

    ghost invariant = { λ s. IsTrue (is_batch s.text.bytes) };

    ghost inverse = { λ t. record { text = t } };
}

impl Batch {
    /// Reads a batch number.
    ///
    /// # Errors
    ///
    /// The first fault that applies: no byte at all, more than 20 bytes, a character outside of set 82.
    pub fn read(text: &str) -> Result<Batch, Set82Fault>
        ensures accepts { IsOk result ↔ IsTrue (is_batch text.now) }
        ensures kept { IfOk result (λ batch. batch.bytes ≡ text.now) }
        ensures empty { IsErrOf result Set82Fault.Empty ↔ (length text.now ≡ 0) }
        ensures long { IsErrOf result Set82Fault.Long ↔ (longest_text < length text.now) }
        ensures character { IsErrOf result Set82Fault.Character
            ↔ ((0 < length text.now) × (length text.now ≤ longest_text) × (list_all is_in_set_82 text.now ≡ false)) }
    {
        let text = read_set_82(text)?;
        Ok(Batch { text })
    }

    /// The characters as read.
    pub fn text(&self) -> &str
        ensures text { result.now ≡ self.now.bytes }
        ensures grammar { IsTrue (is_batch self.now.bytes) }
    {
        self.text.as_str()
    }

    /// Proves that the text is in its grammar, and does nothing else.
    pub fn tell_grammar(&self)
        ensures { IsTrue (is_batch self.now.bytes) }
    {
        let _ = &self.text;
    }
}
