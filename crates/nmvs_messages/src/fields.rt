//! The fields of a line.
ghost use Rattle.std.specs.Prelude.{◌≡◌, ◌≤◌, [], ◌∷◌, ℕ, List, Option, Some, false, IsTrue, IfSome, IfNone, IfOk, MatchResult, length, map, take};
ghost use Rattle.std.specs.List.{list_all};
ghost use Rattle.nmvs_messages.specs.Fields.{is_printable, fields_in, fields_behind, are_printable_behind, length_behind, line_fault};

use crate::LONGEST_LINE;
use arrayvec::ArrayVec;

/// The most fields of a line that are kept. No line has more than nine, so a tenth shows that there are too many.
pub const KEPT_FIELDS: usize = 10;

/// The fields of a line, or the first ten if there are more.
pub type Fields<'a> = ArrayVec<&'a str, KEPT_FIELDS>;

/// The fields of a line.
///
/// # Errors
///
/// The first of these that holds: it is too `long`, it has `bytes` that are no printable ASCII characters, it has an `empty`
/// field.
pub fn fields_of<F: Copy>(line: &[u8], long: F, bytes: F, empty: F) -> Result<Fields<'_>, F>
    ensures fields { IfOk result (λ fields.
        map (λ f. f.now) fields.items ≡ take KEPT_FIELDS (fields_in line.now)) }
    ensures fault { (of_fields : List (List ℕ) → Option F) → MatchResult result
        (λ fields. line_fault long bytes empty of_fields line.now ≡ of_fields (fields_in line.now))
        (λ fault. line_fault long bytes empty of_fields line.now ≡ Some fault) }
{
    let mut fields = Fields::new();
    fill_fields(&mut fields, line, long, bytes, empty)?;
    Ok(fields)
}

/// Puts the fields of a line, or the first ten if there are more, into an empty list.
///
/// # Errors
///
/// Those of [`fields_of`]. Some fields may be in the list then.
pub fn fill_fields<'l, F: Copy>(
    fields: &mut Fields<'l>,
    line: &'l [u8],
    long: F,
    bytes: F,
    empty: F,
) -> Result<(), F>
    requires { fields.old.items ≡ [] }
    ensures fields { IfOk result (λ _. map (λ f. f.now) fields.new.items ≡ take KEPT_FIELDS (fields_in line.now)) }
    ensures fault { (of_fields : List (List ℕ) → Option F) → MatchResult result
        (λ _. line_fault long bytes empty of_fields line.now ≡ of_fields (fields_in line.now))
        (λ fault. line_fault long bytes empty of_fields line.now ≡ Some fault) }
{
    if line.len() > LONGEST_LINE {
        return Err(long);
    }
    let mut rest = Some(line);
    while let Some(text) = rest {
        let (field, behind) = cut_field(text).ok_or(bytes)?;
        if field.is_empty() {
            return Err(if are_printable(text) { empty } else { bytes });
        }
        if !fields.is_full() {
            fields.push(field);
        }
        rest = behind;
    }
    Ok(())
}

/// The first field of a text, and the bytes after the space that ends it, if one does. There is none if a byte up to there is
/// not printable.
fn cut_field(text: &[u8]) -> Option<(&str, Option<&[u8]>)>
    ensures fields { IfSome result (λ cut. fields_in text.now ≡ cut.0.now ∷ fields_behind cut.1) }
    ensures printable { IfSome result (λ cut. list_all is_printable text.now ≡ are_printable_behind cut.1) }
    ensures shorter { IfSome result (λ cut. length_behind cut.1 ≤ length text.now) }
    ensures none { IfNone result (list_all is_printable text.now ≡ false) }
{
    for (i, b) in text.iter().enumerate() {
        if !b.is_ascii_graphic() {
            if *b != b' ' {
                return None;
            }
            return Some((as_text(&text[..i]), Some(&text[i + 1..])));
        }
    }
    Some((as_text(text), None))
}

/// Printable bytes as a text.
fn as_text(bytes: &[u8]) -> &str
    requires { IsTrue (list_all is_printable bytes.now) }
    ensures { result.now ≡ bytes.now }
{
    // Printable ASCII is UTF-8, which is proved, so no run looks for it.
    unsafe { str::from_utf8_unchecked(bytes) }
}

fn are_printable(bytes: &[u8]) -> bool
    ensures { result ≡ list_all is_printable bytes.now }
{
    bytes.iter().all(|b| matches!(*b, b' '..=b'~'))
}
