//! Tags before lines.
ghost use Rattle.std.specs.Prelude.{◌≡◌, ◌<◌, ◌∷◌, [], Some, None, IfSome, IfNone, length};
ghost use Rattle.nmvs_messages.specs.Fields.{fields_in};
ghost use Rattle.nmvs_protocol.specs.Tags.{behind_tag, tag_named as tag_of_field, tag_of};

use memchr::memchr;
use nmvs_identifier::Tag;
use nmvs_messages::LONGEST_TAG_TEXT;

/// The tag that a line begins with, if there is one, and the bytes after it. A tag stands after `#` and before a space (own).
pub(crate) fn cut_tag(line: &[u8]) -> Option<(Tag, &[u8])>
    ensures tag { IfSome result (λ cut. tag_of line.now ≡ Some cut.0) }
    ensures behind { IfSome result (λ cut. cut.1.now ≡ behind_tag cut.0 line.now) }
    ensures none { IfNone result (tag_of line.now ≡ None) }
{
    // Most lines have no tag.
    if line.is_empty() || line[0] != b'#' {
        return None;
    }
    let front = &line[..LONGEST_TAG_TEXT.min(line.len())];
    let (field, _behind) = cut_field(front)?;
    let tag = tag_named(field)?;
    Some((tag, &line[field.len() + 1..]))
}

/// The first field of a text that has another field, and the bytes after its space.
fn cut_field(text: &[u8]) -> Option<(&[u8], &[u8])>
    ensures cut { IfSome result (λ cut. fields_in text.now ≡ cut.0.now ∷ fields_in cut.1.now) }
    ensures within { IfSome result (λ cut. length cut.0.now < length text.now) }
    ensures none { IfNone result (fields_in text.now ≡ text.now ∷ []) }
{
    let space = memchr(b' ', text)?;
    Some((&text[..space], &text[space + 1..]))
}

/// The tag of a field.
fn tag_named(field: &[u8]) -> Option<Tag>
    ensures { result ≡ tag_of_field field.now }
{
    let [b'#', name @ ..] = field else {
        return None;
    };
    match str::from_utf8(name) {
        Ok(name) => Tag::read(name),
        Err(_) => None,
    }
}
