//! A law on the names of alerts.
ghost use Rattle.nmvs_reports.specs.Alerts.{NamesOnce};

/// A name is one entry's in a lawful trail, and in every later one (own, for the investigations of Article 37(d)). It does
/// nothing.
pub fn alert_names()
    ensures { NamesOnce }
{}
