//! The names of alerts.
ghost use Rattle.std.specs.Prelude.{◌≡◌, ◌≢◌, ◌<◌, ◌^◌, ℕ, List, decimal, IfSome, IfNone, IsTrue};
ghost use Rattle.nmvs_identifier.specs.ProductCode.{is_product_code};
ghost use Rattle.nmvs_reports.specs.Alerts.{alert_text, is_named, is_numbered};
ghost use Rattle.nmvs_reports.specs.declared.alert_name.AlertName.{AlertName as AnAlertName};

use itoa::Buffer;
use nmvs_identifier::ProductCode;
use nmvs_rules::{Entry, Reply};
use std::fmt;

/// The name of an alert (own). It shows as `09506000134352-17`: the 17th alert on this product code.
#[derive(Clone, Copy)]
pub struct AlertName {
    pub code: ProductCode,
    /// The number of the alert among those on the product code, from 1 on.
    pub number: u64,
}

impl fmt::Display for AlertName {
    ghost use Rattle.std.specs.Prelude.{Some};
    ghost use Rattle.nmvs_reports.specs.Alerts.{alert_text};

    ghost output = { λ name. Some (alert_text name) };

    fn fmt<W: fmt::Write>(&self, f: &mut fmt::Formatter<W>) -> fmt::Result {
        write!(f, "{}-{}", self.code.text(), self.number)
    }
}

impl AlertName {
    /// Reads a name from the text that it shows as.
    ///
    /// There is none if the text does not have a product code, `-`, and a number below 2^64 in decimals without leading zeros.
    pub fn read(text: &str) -> Option<AlertName>
        ensures some { IfSome result (λ name. alert_text name ≡ text.now) }
        ensures none { IfNone result ((name : AnAlertName) → IsTrue (is_product_code name.code.bytes) → name.number < 2 ^ 64 → alert_text name ≢ text.now) }
    {
        let (code, number) = text.split_once('-')?;
        let number = number_of(number)?;
        match ProductCode::read(code) {
            Ok(code) => Some(AlertName { code, number }),
            Err(_) => None,
        }
    }

    /// Whether an entry is the alert of this name.
    pub fn names(&self, entry: &Entry) -> bool
        ensures { result ≡ is_named self.now entry.now }
    {
        self.code == entry.put.question.code() && is_numbered(self.number, &entry.reply)
    }
}

/// The number that digits write without leading zeros.
fn number_of(digits: &str) -> Option<u64>
    ensures some { IfSome result (λ n. digits.now ≡ decimal n) }
    ensures none { IfNone result ((n : ℕ) → n < 2 ^ 64 → digits.now ≢ decimal n) }
{
    let Ok(number) = digits.parse::<u64>() else {
        return None;
    };
    let mut buffer = Buffer::new();
    if buffer.format(number) == digits {
        Some(number)
    } else {
        None
    }
}

/// Whether a reply is the alert of this number.
fn is_numbered(wanted: u64, reply: &Reply) -> bool
    ensures { result ≡ is_numbered wanted reply.now }
{
    match reply {
        Reply::Alert { number, .. } => *number == wanted,
        _ => false,
    }
}
