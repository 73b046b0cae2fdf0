//! Laws of the JSON of replies, and of the reading of scans.
ghost use Rattle.nmvs_json.specs.Laws.{AllArePlaced, EachFits};
ghost use Rattle.nmvs_json.specs.Scans.{ScansAreComputed};

/// No word of a reply is left out of its JSON. It does nothing.
pub fn no_word_is_left_out()
    ensures placed { AllArePlaced }
    ensures fits { EachFits }
{}

/// The computed reading of a scan is that of nmvs_elements. It does nothing.
pub fn scans_are_computed()
    ensures { ScansAreComputed }
{}
