//! Application identifiers (GS1 General Specifications, section 3.2).
ghost use Rattle.std.specs.Prelude.{◌≡◌, ◌+◌, ◌≤◌, ◌↔◌, IsSome, IfSome, Some};
ghost use Rattle.nmvs_elements.specs.Faults.{name_text};

use std::fmt;

/// The nation whose national healthcare reimbursement number the code of a pack has: one of application identifiers 710 to
/// 716 (section 3.8).
#[derive(Clone, Copy, Debug, PartialEq, Eq)]
pub struct National {
    /// The last digit of the application identifier, as an ASCII byte.
    pub(crate) digit: u8,
}

impl National {
    /// The nation of an application identifier, if it is one of 710 to 716.
    pub fn new(identifier: u16) -> Option<National>
        ensures in_range { IsSome result ↔ (710 ≤ identifier × identifier ≤ 716) }
        ensures value { IfSome result (λ nation. nation.digit + 662 ≡ identifier) }
    {
        if identifier < 710 || identifier > 716 {
            return None;
        }
        Some(National {
            digit: (identifier - 662) as u8,
        })
    }
}

/// The application identifier of an element that is read.
#[derive(Clone, Copy, Debug, PartialEq, Eq)]
pub enum ApplicationIdentifier {
    /// 01, the product code.
    Code,
    /// 21, the serial number.
    Serial,
    /// 10, the batch number.
    Batch,
    /// 17, the expiry date.
    Expiry,
    /// 710 to 716, the national number.
    NationalNumber(National),
}

/// The name of the element, and its identifier.
impl fmt::Display for ApplicationIdentifier {
    ghost output = { λ identifier. Some (name_text identifier) };

    fn fmt<W: fmt::Write>(&self, f: &mut fmt::Formatter<W>) -> fmt::Result {
        match self {
            ApplicationIdentifier::Code => f.write_str("product code (01)"),
            ApplicationIdentifier::Serial => f.write_str("serial number (21)"),
            ApplicationIdentifier::Batch => f.write_str("batch number (10)"),
            ApplicationIdentifier::Expiry => f.write_str("expiry date (17)"),
            ApplicationIdentifier::NationalNumber(nation) => {
                let number = nation.digit as u16 + 662;
                write!(f, "national number ({number})")
            }
        }
    }
}
