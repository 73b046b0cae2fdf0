//! The elements of a pack's code.
ghost use Rattle.std.specs.Prelude.{◌≡◌, IsTrue, IfSome, IfNone, false};
ghost use Rattle.nmvs_identifier.specs.Serial.{is_serial};

use nmvs_identifier::{Batch, Expiry, ProductCode, Serial};
use std::marker::Model;

/// A national number: 1 to 20 characters of the GS1 character set 82, as a serial number has (GS1 General Specifications,
/// section 3.8).
#[derive(Clone, Copy, PartialEq, Eq)]
pub struct NationalNumber {
    text: Serial,
}

impl Model for NationalNumber {
    ghost use Rattle.std.specs.Prelude.{IsTrue};
    ghost use Rattle.nmvs_identifier.specs.Texts.{Text};
    ghost use Rattle.nmvs_identifier.specs.Serial.{is_serial};

    ghost Value = { Text };

    ghost view = { λ s. s.text };

    ghost invariant = { λ s. IsTrue (is_serial s.text.bytes) };

    ghost inverse = { λ t. record { text = t } };
}

impl NationalNumber {
    /// Reads a national number.
    pub fn read(text: &str) -> Option<NationalNumber>
        ensures some { IfSome result (λ number. (number.bytes ≡ text.now) × IsTrue (is_serial text.now)) }
        ensures none { IfNone result (is_serial text.now ≡ false) }
    {
        match Serial::read(text) {
            Ok(text) => Some(NationalNumber { text }),
            Err(_) => None,
        }
    }

    /// The characters as read.
    pub fn text(&self) -> &str
        ensures text { result.now ≡ self.now.bytes }
        ensures grammar { IsTrue (is_serial self.now.bytes) }
    {
        self.text.text()
    }
}

/// The elements of a pack's code (Article 4 of the Regulation).
#[derive(Clone, Copy, PartialEq, Eq)]
pub struct Elements {
    pub code: ProductCode,
    pub serial: Serial,
    pub batch: Batch,
    pub expiry: Expiry,
    /// The national number, if a nation asks for it.
    pub national: Option<NationalNumber>,
}
