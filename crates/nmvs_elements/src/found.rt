//! The values that were found so far.
ghost use Rattle.std.specs.Prelude.{◌≡◌, ◌==◌, Some, None, is_some, if◌then◌else◌};
ghost use Rattle.nmvs_elements.specs.declared.identifiers.ApplicationIdentifier.{ApplicationIdentifier};
ghost use Rattle.nmvs_elements.specs.Elements.{first_digits};
ghost use Rattle.nmvs_elements.specs.Found.{now_of, found_at};

use crate::ApplicationIdentifier;

/// The values of the elements that were found so far.
#[derive(Clone, Copy)]
pub(crate) struct Found<'a> {
    pub(crate) code: Option<&'a [u8]>,
    pub(crate) serial: Option<&'a [u8]>,
    pub(crate) batch: Option<&'a [u8]>,
    pub(crate) expiry: Option<&'a [u8]>,
    pub(crate) national: Option<&'a [u8]>,
}

/// No values.
pub(crate) fn nothing_found<'a>() -> Found<'a>
    ensures { (identifier : ApplicationIdentifier) → found_at result identifier ≡ None }
{
    Found {
        code: None,
        serial: None,
        batch: None,
        expiry: None,
        national: None,
    }
}

impl<'a> Found<'a> {
    /// Whether this element was found.
    pub(crate) fn has(&self, identifier: ApplicationIdentifier) -> bool
        ensures { result ≡ is_some (found_at self.now identifier) }
    {
        match identifier {
            ApplicationIdentifier::Code => self.code.is_some(),
            ApplicationIdentifier::Serial => self.serial.is_some(),
            ApplicationIdentifier::Batch => self.batch.is_some(),
            ApplicationIdentifier::Expiry => self.expiry.is_some(),
            ApplicationIdentifier::NationalNumber(_) => self.national.is_some(),
        }
    }

    /// These values, and this one of this element.
    pub(crate) fn with(self, identifier: ApplicationIdentifier, value: &'a [u8]) -> Found<'a>
        ensures { (other : ApplicationIdentifier) → found_at result other
            ≡ (if first_digits other == first_digits identifier then Some value.entry.now else found_at self.entry other) }
    {
        let value = Some(value);
        match identifier {
            ApplicationIdentifier::Code => Found {
                code: value,
                ..self
            },
            ApplicationIdentifier::Serial => Found {
                serial: value,
                ..self
            },
            ApplicationIdentifier::Batch => Found {
                batch: value,
                ..self
            },
            ApplicationIdentifier::Expiry => Found {
                expiry: value,
                ..self
            },
            ApplicationIdentifier::NationalNumber(_) => Found {
                national: value,
                ..self
            },
        }
    }
}
