//! Dates as they are written.
ghost use Rattle.std.specs.Prelude.{◌≡◌, IfOk, IfSome};
ghost use Rattle.jiff_fmt.specs.Text.{date_text};

use jiff::civil::Date;
use std::alloc::{AllocError, Global};

/// The date of a text in the form `2026-01-31`, or None if the text is no date in this form.
///
/// # Errors
///
/// There is no memory for the comparison.
pub fn read_date(alloc: Global, text: &str) -> Result<Option<Date>, AllocError>
    ensures { IfOk result (λ date. IfSome date (λ date. date_text date ≡ text.now)) }
{
    let Ok(date) = text.parse::<Date>() else {
        return Ok(None);
    };
    let written = format!(in alloc; "{date}")?;
    if written.as_str() == text {
        Ok(Some(date))
    } else {
        Ok(None)
    }
}
