//! Laws of scans.
ghost use Rattle.nmvs_elements.specs.Laws.{ScansAreRead, LostSeparatorsAreSeen, OneReading, ValuesArePieces};

/// Each printed form of a pack's code is read as its elements. A scan that lost separators is read as no pack. A scan is
/// read in one way. Each value is a piece of the scan. It does nothing.
pub fn scans_are_read()
    ensures read { ScansAreRead }
    ensures lost { LostSeparatorsAreSeen }
    ensures one { OneReading }
    ensures pieces { ValuesArePieces }
{}
