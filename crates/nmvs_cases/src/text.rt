//! The texts of acts.
ghost use Rattle.std.specs.Prelude.{◌≡◌, ◌↔◌, IsTrue, IsSome, IfSome};
ghost use Rattle.std.specs.List.{list_all};
ghost use Rattle.nmvs_cases.specs.Texts as texts;
ghost use Rattle.nmvs_cases.specs.Texts.{is_case_text, is_no_control};

use arrayvec::ArrayString;
use std::marker::Model;

/// The most bytes of a text of an act (own).
pub const LONGEST_CASE_TEXT: usize = 400;

/// What a user writes with an act (own): at most 400 bytes of UTF-8 without a control character, U+0080 to U+009F among them, so
/// that it stands on one line and says nothing to a terminal. It may be empty.
#[derive(Drop)]
pub struct CaseText {
    text: ArrayString<LONGEST_CASE_TEXT>,
}

impl Model for CaseText {
    ghost use Rattle.std.specs.Prelude.{IsTrue};
    ghost use Rattle.nmvs_identifier.specs.Texts.{Text};
    ghost use Rattle.nmvs_cases.specs.Texts.{is_case_text};

    ghost Value = { Text };

    ghost view = { λ t. record { bytes = t.text.bytes } };

    ghost invariant = { λ t. IsTrue (is_case_text t.text.bytes) };
}

impl CaseText {
    /// Reads a text. There is none if it is too long or has a control character.
    pub fn read(text: &str) -> Option<CaseText>
        ensures accepts { IsSome result ↔ IsTrue (is_case_text text.now) }
        ensures kept { IfSome result (λ read. read.bytes ≡ text.now) }
    {
        let bytes = text.as_bytes();
        if bytes.len() > LONGEST_CASE_TEXT
            || !has_no_control(bytes)
            || !lacks_later_controls(bytes)
        {
            return None;
        }
        let mut kept = ArrayString::new();
        kept.push_str(text);
        Some(CaseText { text: kept })
    }

    /// The characters as read.
    pub fn text(&self) -> &str
        ensures text { result.now ≡ self.now.bytes }
        ensures grammar { IsTrue (is_case_text self.now.bytes) }
    {
        self.text.as_str()
    }
}

/// Whether no byte is a control character of ASCII.
fn has_no_control(bytes: &[u8]) -> bool
    ensures { result ≡ list_all is_no_control bytes.now }
{
    bytes.iter().all(|b| *b >= b' ' && *b != 127)
}

/// Whether a text has no control character from U+0080 to U+009F.
fn lacks_later_controls(text: &[u8]) -> bool
    ensures { result ≡ texts.lacks_later_controls text.now }
{
    let mut rest = text;
    while let [byte, later @ ..] = rest {
        if *byte == 0xC2 && ends_control(later) {
            return false;
        }
        rest = later;
    }
    true
}

/// Whether a byte follows that ends a control character after 0xC2.
fn ends_control(rest: &[u8]) -> bool
    ensures { result ≡ texts.ends_control rest.now }
{
    match rest {
        [byte, ..] => *byte >= 0x80 && *byte <= 0x9F,
        [] => false,
    }
}
