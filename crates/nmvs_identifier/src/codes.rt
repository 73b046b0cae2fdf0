//! Lists of product codes and company prefixes.
ghost use Rattle.std.specs.Prelude.{◌≡◌, ◌↔◌, ◌≤◌, IsTrue, IsSome, IfSome, length};
ghost use Rattle.std.specs.List.{list_all};
ghost use Rattle.nmvs_identifier.specs.Codes.{codes_in, covers, is_code_or_prefix, is_codes, is_company_prefix, is_named_by};

use crate::ProductCode;
use crate::characters::are_digits;
use crate::short_text::ShortText;
use std::marker::Model;

/// The most bytes of a list (own): four product codes with three commas.
const LONGEST_CODES: usize = 59;

/// The products that a holder may upload, as written. They are product codes and GS1 company prefixes of 4 to 12
/// digits, with commas between them (GS1 General Specifications, section 1.4.5). The list has at most 59 characters
/// (own).
///
/// Equality is that of its text.
#[derive(Clone, Copy, PartialEq, Eq)]
pub struct Codes {
    text: ShortText<LONGEST_CODES>,
}

impl Model for Codes {
    ghost use Rattle.std.specs.Prelude.{IsTrue};
    ghost use Rattle.nmvs_identifier.specs.Texts.{Text};
    ghost use Rattle.nmvs_identifier.specs.Codes.{is_codes};

    ghost Value = { Text };

    ghost view = { λ c. c.text };

    ghost invariant = { λ c. IsTrue (is_codes c.text.bytes) };

    ghost inverse = { λ t. record { text = t } };
}

impl Codes {
    /// Reads a list. A text that is none gives `None`.
    pub fn read(text: &str) -> Option<Codes>
        ensures accepts { IsSome result ↔ IsTrue (is_codes text.now) }
        ensures kept { IfSome result (λ codes. codes.bytes ≡ text.now) }
    {
        if text.len() > LONGEST_CODES || !are_codes(text) {
            return None;
        }
        Some(Codes {
            text: ShortText::from(text),
        })
    }

    /// The characters as read.
    pub fn text(&self) -> &str
        ensures text { result.now ≡ self.now.bytes }
        ensures grammar { IsTrue (is_codes self.now.bytes) }
    {
        self.text.as_str()
    }

    /// Whether the list has a product code, by itself or by its company prefix.
    pub fn covers(&self, code: &ProductCode) -> bool
        ensures { result ≡ covers self.now code.now }
    {
        let digits = code.text().as_bytes();
        self.text
            .as_str()
            .split(',')
            .any(|part| is_named_by(digits, part))
    }

    /// Proves that the text is in its grammar, and does nothing else.
    pub fn tell_grammar(&self)
        ensures { IsTrue (is_codes self.now.bytes) }
    {
        let _ = &self.text;
    }
}

/// Whether each text between commas is a product code or a company prefix.
fn are_codes(text: &str) -> bool
    ensures { result ≡ list_all is_code_or_prefix (codes_in text.now) }
{
    text.split(',').all(|part| is_code_or_prefix(part))
}

fn is_code_or_prefix(text: &str) -> bool
    ensures { result ≡ is_code_or_prefix text.now }
{
    ProductCode::read(text).is_ok() || is_company_prefix(text.as_bytes())
}

fn is_company_prefix(text: &[u8]) -> bool
    ensures { result ≡ is_company_prefix text.now }
{
    4 <= text.len() && text.len() <= 12 && are_digits(text)
}

/// Whether a product code's digits are this code, or have this company prefix after the indicator digit.
fn is_named_by(digits: &[u8], text: &str) -> bool
    requires { 1 ≤ length digits.now }
    ensures { result ≡ is_named_by digits.now text.now }
{
    text.as_bytes() == digits || digits[1..].starts_with(text.as_bytes())
}
