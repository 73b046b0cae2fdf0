//! Tags of lines (own).
ghost use Rattle.std.specs.Prelude.{◌≡◌, ◌↔◌, IsTrue, IsSome, IfSome};
ghost use Rattle.nmvs_identifier.specs.Tag.{is_tag};

use crate::characters::are_in_names;
use crate::short_text::ShortText;
use std::marker::Model;

/// The most bytes of a tag (own): a UUID has 36.
const LONGEST_TAG: usize = 40;

/// The tag of a line, by which a user can send it again (own): 1 to 40 letters, digits and characters of `._-`. The
/// first is a letter or a digit. A UUID is a tag. The `#` in front of it in a line is no part of it.
///
/// Order, equality and hash are those of its text.
#[derive(Clone, Copy, PartialEq, Eq, PartialOrd, Ord, Hash)]
pub struct Tag {
    text: ShortText<LONGEST_TAG>,
}

impl Model for Tag {
    ghost use Rattle.std.specs.Prelude.{IsTrue};
    ghost use Rattle.nmvs_identifier.specs.Texts.{Text};
    ghost use Rattle.nmvs_identifier.specs.Tag.{is_tag};

    ghost Value = { Text };

    ghost view = { λ t. t.text };

    ghost invariant = { λ t. IsTrue (is_tag t.text.bytes) };

    ghost inverse = { λ t. record { text = t } };
}

impl Tag {
    /// Reads a tag. A text that is none gives `None`.
    pub fn read(text: &str) -> Option<Tag>
        ensures accepts { IsSome result ↔ IsTrue (is_tag text.now) }
        ensures kept { IfSome result (λ tag. tag.bytes ≡ text.now) }
    {
        let bytes = text.as_bytes();
        if bytes.is_empty()
            || bytes.len() > LONGEST_TAG
            || !bytes[0].is_ascii_alphanumeric()
            || !are_in_names(bytes)
        {
            return None;
        }
        Some(Tag {
            text: ShortText::from(text),
        })
    }

    /// The characters as read.
    pub fn text(&self) -> &str
        ensures text { result.now ≡ self.now.bytes }
        ensures grammar { IsTrue (is_tag self.now.bytes) }
    {
        self.text.as_str()
    }

    /// Proves that the text is in its grammar, and does nothing else.
    pub fn tell_grammar(&self)
        ensures { IsTrue (is_tag self.now.bytes) }
    {
        let _ = &self.text;
    }
}
