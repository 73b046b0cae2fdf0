//! The values of elements.
ghost use Rattle.std.specs.Prelude.{◌≡◌, IfOk, IfErr, IfSome, IfNone, IsTrue, Some, None, List, ℕ, false};
ghost use Rattle.std.specs.List.{find};
ghost use Rattle.std.specs.Str.{IsUtf8};
ghost use Rattle.nmvs_identifier.specs.Batch.{is_batch};
ghost use Rattle.nmvs_identifier.specs.Expiry.{is_expiry};
ghost use Rattle.nmvs_identifier.specs.ProductCode.{is_product_code};
ghost use Rattle.nmvs_identifier.specs.Serial.{is_serial};
ghost use Rattle.nmvs_elements.specs.Found.{found_at, now_of};
ghost use Rattle.nmvs_elements.specs.Scan.{ArePack, ReadsValues, has_wrong, is_missing};
ghost use Rattle.nmvs_elements.specs.Elements.{required};

use crate::found::Found;
use crate::{ApplicationIdentifier, Elements, National, NationalNumber, ScanFault};
use nmvs_identifier::{Batch, Expiry, ProductCode, Serial};

/// The elements of a pack's code, if each value that is required was found, and is in its grammar.
pub(crate) fn elements_of(
    found: &Found<'_>,
    nation: Option<National>,
) -> Result<Elements, ScanFault>
    ensures { ReadsValues nation (found_at found.now) result }
{
    match first_missing(found, nation) {
        Some(identifier) => Err(ScanFault::Missing(identifier)),
        None => match read_values(found, nation) {
            Ok(elements) => Ok(elements),
            Err(identifier) => Err(ScanFault::Value(identifier)),
        },
    }
}

/// The first element that is required and was not found.
fn first_missing(found: &Found<'_>, nation: Option<National>) -> Option<ApplicationIdentifier>
    ensures { result ≡ find (is_missing (found_at found.now)) (required nation) }
{
    if found.code.is_none() {
        return Some(ApplicationIdentifier::Code);
    }
    if found.serial.is_none() {
        return Some(ApplicationIdentifier::Serial);
    }
    if found.batch.is_none() {
        return Some(ApplicationIdentifier::Batch);
    }
    if found.expiry.is_none() {
        return Some(ApplicationIdentifier::Expiry);
    }
    let nation = nation?;
    if found.national.is_none() {
        return Some(ApplicationIdentifier::NationalNumber(nation));
    }
    None
}

/// The elements, if each value is in its grammar, or else the first that is not.
fn read_values(
    found: &Found<'_>,
    nation: Option<National>,
) -> Result<Elements, ApplicationIdentifier>
    requires { find (is_missing (found_at found.now)) (required nation) ≡ None }
    ensures ok { IfOk result (λ pack. ArePack nation (found_at found.now) pack) }
    ensures err { IfErr result (λ identifier. find (has_wrong (found_at found.now)) (required nation) ≡ Some identifier) }
{
    let Some(code) = code_of(found.code) else {
        return Err(ApplicationIdentifier::Code);
    };
    let Some(serial) = serial_of(found.serial) else {
        return Err(ApplicationIdentifier::Serial);
    };
    let Some(batch) = batch_of(found.batch) else {
        return Err(ApplicationIdentifier::Batch);
    };
    let Some(expiry) = expiry_of(found.expiry) else {
        return Err(ApplicationIdentifier::Expiry);
    };
    let national = match nation {
        None => None,
        Some(nation) => match national_number_of(found.national) {
            Some(number) => Some(number),
            None => return Err(ApplicationIdentifier::NationalNumber(nation)),
        },
    };
    Ok(Elements {
        code,
        serial,
        batch,
        expiry,
        national,
    })
}

fn code_of(value: Option<&[u8]>) -> Option<ProductCode>
    ensures some { IfSome result (λ code. (now_of value.entry ≡ Some code.bytes) × IsTrue (is_product_code code.bytes)) }
    ensures none { IfNone result ((v : List ℕ) → now_of value.entry ≡ Some v → is_product_code v ≡ false) }
{
    ProductCode::read(text_of(value)?).ok()
}

fn serial_of(value: Option<&[u8]>) -> Option<Serial>
    ensures some { IfSome result (λ serial. (now_of value.entry ≡ Some serial.bytes) × IsTrue (is_serial serial.bytes)) }
    ensures none { IfNone result ((v : List ℕ) → now_of value.entry ≡ Some v → is_serial v ≡ false) }
{
    Serial::read(text_of(value)?).ok()
}

fn batch_of(value: Option<&[u8]>) -> Option<Batch>
    ensures some { IfSome result (λ batch. (now_of value.entry ≡ Some batch.bytes) × IsTrue (is_batch batch.bytes)) }
    ensures none { IfNone result ((v : List ℕ) → now_of value.entry ≡ Some v → is_batch v ≡ false) }
{
    Batch::read(text_of(value)?).ok()
}

fn expiry_of(value: Option<&[u8]>) -> Option<Expiry>
    ensures some { IfSome result (λ expiry. (now_of value.entry ≡ Some expiry.bytes) × IsTrue (is_expiry expiry.bytes)) }
    ensures none { IfNone result ((v : List ℕ) → now_of value.entry ≡ Some v → is_expiry v ≡ false) }
{
    Expiry::read(text_of(value)?).ok()
}

fn national_number_of(value: Option<&[u8]>) -> Option<NationalNumber>
    ensures some { IfSome result (λ number. (now_of value.entry ≡ Some number.bytes) × IsTrue (is_serial number.bytes)) }
    ensures none { IfNone result ((v : List ℕ) → now_of value.entry ≡ Some v → is_serial v ≡ false) }
{
    NationalNumber::read(text_of(value)?)
}

/// A value as text, if there is one and it is text.
fn text_of(value: Option<&[u8]>) -> Option<&str>
    ensures some { IfSome result (λ text. now_of value.entry ≡ Some text.now) }
    ensures none { IfNone result ((v : List ℕ) → now_of value.entry ≡ Some v → IsUtf8 v → ⊥) }
{
    str::from_utf8(value?).ok()
}
