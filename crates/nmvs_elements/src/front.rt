//! The element at the front of an element string.
ghost use Rattle.std.specs.Prelude.{◌≡◌, ◌≢◌, ◌++◌, ◌∷◌, ◌≤◌, ℕ, List, length, take, drop, Option, IfOk, IfErr, IfSome, IfNone, IsTrue};
ghost use Rattle.std.specs.List.{list_all};
ghost use Rattle.nmvs_elements.specs.declared.identifiers.ApplicationIdentifier.{ApplicationIdentifier};
ghost use Rattle.nmvs_elements.specs.Elements.{BeginsWith, IsKnown, IsSeparated, identifier_text, is_value_byte, predefined_length, skip_separator};
ghost use Rattle.nmvs_elements.specs.Front.{HasNoElement, IsValueBefore};

use crate::{ApplicationIdentifier, National, ScanFault};
use memchr::memchr;

/// FNC1, as a reader sends it.
const SEPARATOR: u8 = 29;

/// The application identifier and the value of the element at the front, and the bytes after it and its separator. If no
/// application identifier that is read stands there, the fault is `unknown`.
pub(crate) fn first_element(
    bytes: &[u8],
    nation: Option<National>,
    unknown: ScanFault,
) -> Result<(ApplicationIdentifier, &[u8], &[u8]), ScanFault>
    ensures ok { IfOk result (λ first. BeginsWith nation bytes.now (record { identifier = first.0; value = first.1.now }) first.2.now) }
    ensures err { IfErr result (λ fault. HasNoElement nation bytes.now unknown fault) }
{
    let Some((identifier, content)) = split_identifier(bytes, nation) else {
        return Err(unknown);
    };
    let Some((value, behind)) = split_value(content, predefined_size(identifier)) else {
        return Err(ScanFault::Short(identifier));
    };
    Ok((identifier, value, behind_separator(behind)))
}

/// The application identifier at the front, if it is one that is read, and the bytes after it.
fn split_identifier(
    bytes: &[u8],
    nation: Option<National>,
) -> Option<(ApplicationIdentifier, &[u8])>
    ensures some { IfSome result (λ split. IsKnown nation split.0 × (bytes.now ≡ identifier_text split.0 ++ split.1.now)) }
    ensures none { IfNone result ((identifier : ApplicationIdentifier) (content : List ℕ) → IsKnown nation identifier
        → bytes.now ≢ identifier_text identifier ++ content) }
{
    let [first, second, content @ ..] = bytes else {
        return None;
    };
    match (*first, *second) {
        (b'0', b'1') => Some((ApplicationIdentifier::Code, content)),
        (b'2', b'1') => Some((ApplicationIdentifier::Serial, content)),
        (b'1', b'0') => Some((ApplicationIdentifier::Batch, content)),
        (b'1', b'7') => Some((ApplicationIdentifier::Expiry, content)),
        (b'7', b'1') => {
            let nation = nation?;
            let content = behind_digit(content, nation.digit)?;
            Some((ApplicationIdentifier::NationalNumber(nation), content))
        }
        _ => None,
    }
}

/// The bytes after this digit, if the bytes begin with it.
fn behind_digit(bytes: &[u8], digit: u8) -> Option<&[u8]>
    ensures some { IfSome result (λ rest. bytes.now ≡ digit ∷ rest.now) }
    ensures none { IfNone result ((rest : List ℕ) → bytes.now ≢ digit ∷ rest) }
{
    let [first, rest @ ..] = bytes else {
        return None;
    };
    if *first == digit { Some(rest) } else { None }
}

/// The length of the value of an element, if it is predefined.
fn predefined_size(identifier: ApplicationIdentifier) -> Option<usize>
    ensures { result ≡ predefined_length identifier }
{
    match identifier {
        ApplicationIdentifier::Code => Some(14),
        ApplicationIdentifier::Expiry => Some(6),
        ApplicationIdentifier::Serial
        | ApplicationIdentifier::Batch
        | ApplicationIdentifier::NationalNumber(_) => None,
    }
}

/// A value of this length, or one that ends at a separator or at the end, and the bytes after it.
fn split_value(content: &[u8], predefined: Option<usize>) -> Option<(&[u8], &[u8])>
    ensures some { IfSome result (λ split. IsValueBefore predefined content.now split.0.now split.1.now) }
    ensures none { IfNone result ((value behind : List ℕ) → IsValueBefore predefined content.now value behind → ⊥) }
{
    let end = value_end(content);
    let size = predefined.unwrap_or(end);
    if size > end {
        return None;
    }
    Some(content.split_at(size))
}

/// The number of bytes before the first separator, or before the end.
fn value_end(content: &[u8]) -> usize
    ensures within { result ≤ length content.now }
    ensures one_piece { IsTrue (list_all is_value_byte (take result content.now)) }
    ensures ends { IsSeparated (drop result content.now) }
{
    match memchr(SEPARATOR, content) {
        Some(end) => end,
        None => content.len(),
    }
}

/// The bytes after one separator, if one stands at the front.
pub(crate) fn behind_separator(bytes: &[u8]) -> &[u8]
    ensures { result.now ≡ skip_separator bytes.now }
{
    match bytes {
        [SEPARATOR, behind @ ..] => behind,
        _ => bytes,
    }
}
