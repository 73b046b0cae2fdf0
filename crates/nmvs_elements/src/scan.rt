//! The reading of scans.
ghost use Rattle.std.specs.Prelude.{◌≡◌, ◌≤◌, ◌-◌, ◌==◌, length, IfOk, IfErr, MatchResult, [], Ok, Err, if◌then◌else◌};
ghost use Rattle.nmvs_elements.specs.Found.{HasFound, found_at};
ghost use Rattle.nmvs_elements.specs.Scan.{behind_symbology, ReadsString, ReadsValues, ReadsScan};

use crate::found::{Found, nothing_found};
use crate::front::{behind_separator, first_element};
use crate::values::elements_of;
use crate::{Elements, National, ScanFault};

/// The most bytes of a scan (own): no pack's code has a longer one.
pub const LONGEST_SCAN: usize = 100;

/// Reads a scan of the two-dimensional code of a pack, as a reader sends it (GS1 General Specifications, sections 3.2, 7.8 and
/// 7.11).
pub fn read_scan(scan: &[u8], nation: Option<National>) -> Result<Elements, ScanFault>
    ensures { ReadsScan nation scan.now result }
{
    if scan.len() > LONGEST_SCAN {
        return Err(ScanFault::Long);
    }
    let string = behind_separator(cut_symbology(scan)?);
    elements_of(&find_elements(string, scan.len(), nation)?, nation)
}

/// The bytes of a scan without its symbology identifier of GS1, if it has one.
fn cut_symbology(scan: &[u8]) -> Result<&[u8], ScanFault>
    ensures cut { MatchResult result (λ rest. behind_symbology scan.now ≡ Ok rest.now) (λ fault. behind_symbology scan.now ≡ Err fault) }
    ensures within { IfOk result (λ rest. length rest.now ≤ length scan.now) }
{
    match scan {
        [b']', b'd', b'2', rest @ ..]
        | [b']', b'C', b'1', rest @ ..]
        | [b']', b'Q', b'3', rest @ ..]
        | [b']', b'e', b'0', rest @ ..] => Ok(rest),
        [b']', b'd', b'1', ..] => Err(ScanFault::PlainDataMatrix),
        [b']', ..] => Err(ScanFault::Symbology),
        _ => Ok(scan),
    }
}

/// The values of the elements in a string, which is part of a scan of `size` bytes.
fn find_elements(
    string: &[u8],
    size: usize,
    nation: Option<National>,
) -> Result<Found<'_>, ScanFault>
    requires { length string.now ≤ size }
    ensures ok { IfOk result (λ found. HasFound nation string.now found []) }
    ensures err { IfErr result (λ fault. ReadsString nation size string.now (Err fault)) }
{
    let mut found = nothing_found();
    let mut rest = string;
    while !rest.is_empty() {
        let unknown = unknown_at(size, string.len(), rest.len());
        let (identifier, value, behind) = first_element(rest, nation, unknown)?;
        if found.has(identifier) {
            return Err(ScanFault::Twice(identifier));
        }
        found = found.with(identifier, value);
        rest = behind;
    }
    Ok(found)
}

/// The fault of an unknown element, if `left` bytes of the scan, and of its string of `length` bytes, are left.
fn unknown_at(size: usize, length: usize, left: usize) -> ScanFault
    requires { left ≤ size }
    ensures { result ≡ (if left == length then ScanFault.NoElement else ScanFault.Element (size - left)) }
{
    if left == length {
        ScanFault::NoElement
    } else {
        ScanFault::Element(size - left)
    }
}
