//! The tag in front of a line and of its reply.
ghost use Rattle.std.specs.Prelude.{◌≡◌, ◌≤◌, IsTrue};
ghost use Rattle.arrayvec.specs.ArrayString.{array_string_len};
ghost use Rattle.nmvs_rules.specs.Entries.{is_tag_or_none};
ghost use Rattle.nmvs_messages.specs.Tags.{tag_text as text_of_tag};

use arrayvec::ArrayString;
use nmvs_identifier::Tag;

/// The most bytes before a line with a tag: `#`, the tag and a space (own).
pub const LONGEST_TAG_TEXT: usize = 42;

/// The bytes before a line with this tag, and before its reply. Without a tag there are none.
pub fn tag_text(tag: &Option<Tag>) -> ArrayString<LONGEST_TAG_TEXT>
    ensures text { result.bytes ≡ text_of_tag tag.now }
    ensures grammar { IsTrue (is_tag_or_none tag.now) }
{
    let mut text = ArrayString::new();
    if let Some(tag) = tag {
        text.push_str("#");
        text.push_str(tag.text());
        text.push_str(" ");
    }
    text
}
