//! The law of what a holder gets.
ghost use Rattle.nmvs_alerts.specs.Laws.{NoHouseIsShown};

/// A holder gets the same if the users, authorisations and premises of others have other names, one to one (Article 38(1); own). It
/// does nothing.
pub fn no_house_is_shown()
    ensures { NoHouseIsShown }
{}
