//! Texts of 1 to 20 characters of the GS1 character set 82: serial numbers and batch numbers.
ghost use Rattle.std.specs.Prelude.{◌≡◌, ℕ, ◌<◌, ◌≤◌, ◌↔◌, IsTrue, IsOk, IfOk, IsErrOf, length, false};
ghost use Rattle.std.specs.List.{list_all};
ghost use Rattle.nmvs_identifier.specs.Characters.{is_in_set_82, is_set_82_text};
ghost use Rattle.nmvs_identifier.specs.Texts.{longest_text};

use crate::characters::are_in_set_82;
use crate::short_text::{LONGEST_TEXT, ShortText};
use thiserror::Error;

/// The fault of a text that is no serial number or batch number: the first that applies.
#[derive(Clone, Copy, Debug, Error)]
pub enum Set82Fault {
    #[error("the text is empty")]
    Empty,
    #[error("the text has more than 20 characters")]
    Long,
    #[error("the text has a character outside of set 82")]
    Character,
}

/// Reads 1 to 20 characters of set 82. The first fault that applies refuses a text: no byte at all, more than 20 bytes, a
/// character outside of set 82.
pub(crate) fn read_set_82(text: &str) -> Result<ShortText<LONGEST_TEXT>, Set82Fault>
    ensures accepts { IsOk result ↔ IsTrue (is_set_82_text text.now) }
    ensures kept { IfOk result (λ short. short.bytes ≡ text.now) }
    ensures empty { IsErrOf result Set82Fault.Empty ↔ (length text.now ≡ 0) }
    ensures long { IsErrOf result Set82Fault.Long ↔ (longest_text < length text.now) }
    ensures character { IsErrOf result Set82Fault.Character
        ↔ ((0 < length text.now) × (length text.now ≤ longest_text) × (list_all is_in_set_82 text.now ≡ false)) }
{
    if text.is_empty() {
        return Err(Set82Fault::Empty);
    }
    if text.len() > LONGEST_TEXT {
        return Err(Set82Fault::Long);
    }
    if !are_in_set_82(text.as_bytes()) {
        return Err(Set82Fault::Character);
    }
    Ok(ShortText::from(text))
}
