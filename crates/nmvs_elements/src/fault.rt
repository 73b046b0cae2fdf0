//! Faults of scans.
ghost use Rattle.std.specs.Prelude.{Some};
ghost use Rattle.nmvs_elements.specs.Faults.{fault_text};

use crate::ApplicationIdentifier;
use std::error::Error;
use std::fmt;

/// The reason why a scan is refused. The first fault from the left comes first, then the first element that is missing,
/// then the first value that is not in its grammar. Each has a text for the person who scans.
#[derive(Clone, Copy, Debug, PartialEq, Eq)]
pub enum ScanFault {
    /// It has more bytes than a pack's code can have.
    Long,
    /// A Data Matrix code that is none of GS1.
    PlainDataMatrix,
    /// A symbology identifier that no pack's code has.
    Symbology,
    /// It begins with no element that is read.
    NoElement,
    /// No known element begins after this number of bytes.
    Element(usize),
    /// The value of this element ends too early.
    Short(ApplicationIdentifier),
    /// This element stands there twice.
    Twice(ApplicationIdentifier),
    /// This element is missing.
    Missing(ApplicationIdentifier),
    /// The value of this element is not in its grammar.
    Value(ApplicationIdentifier),
}

impl fmt::Display for ScanFault {
    ghost output = { λ fault. Some (fault_text fault) };

    fn fmt<W: fmt::Write>(&self, f: &mut fmt::Formatter<W>) -> fmt::Result {
        match self {
            ScanFault::Long => f.write_str(
                "the scan is longer than a pack's code can be: scan one code at a time",
            ),
            ScanFault::PlainDataMatrix => f.write_str(
                "this is a Data Matrix code, but none of GS1: scan the code with the product code and the serial number",
            ),
            ScanFault::Symbology => f.write_str(
                "this code is of a kind that no pack has: scan the square two-dimensional code",
            ),
            ScanFault::NoElement => f.write_str(
                "this is not the code of a pack: scan the square two-dimensional code",
            ),
            ScanFault::Element(place) => write!(
                f,
                "what stands behind {place} characters of the scan is none of the elements that are read"
            ),
            ScanFault::Short(identifier) => {
                write!(f, "the {identifier} ends too early: scan again")
            }
            ScanFault::Twice(identifier) => {
                write!(
                    f,
                    "the {identifier} stands there twice: scan one code at a time"
                )
            }
            ScanFault::Missing(identifier) => write!(
                f,
                "the scan has no {identifier}: if it is printed on the pack, the scanner leaves out separators"
            ),
            ScanFault::Value(identifier) => write!(
                f,
                "the {identifier} is not well-formed: scan again, and check the scanner's keyboard layout"
            ),
        }
    }
}

impl Error for ScanFault {}
