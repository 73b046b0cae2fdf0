//! Laws of the parts of an export.
ghost use Rattle.nmvs_parts.specs.Laws.{PartsAreWhole, FirstIsWhole};

/// All parts together say what one check of the whole says. They accept an export exactly if the whole is accepted. Of the lines
/// that parts refuse, the first is the one that the whole refuses, with the same objection. It does nothing.
pub fn parts_laws()
    ensures accepted { PartsAreWhole }
    ensures refused { FirstIsWhole }
{}
