//! Laws of hints and cases.
ghost use Rattle.nmvs_cases.specs.Laws.{CasesStay, HintsAreTrue, LinesHaveNoLf, NoneIsForgotten, RangesHaveTheirOwn};

/// A hint says what the trail has (own). It does nothing.
pub fn hints_are_true()
    ensures { HintsAreTrue }
{}

/// No flagged alert leaves the list of work by itself (own, for Article 37(d)). It does nothing.
pub fn none_is_forgotten()
    ensures { NoneIsForgotten }
{}

/// A line changes the case of no alert with another code, number or hint (own). It does nothing.
pub fn ranges_have_their_own()
    ensures { RangesHaveTheirOwn }
{}

/// After two lists of lines a case is what the second makes of it after the first, so what lines made of it stays (own). It does
/// nothing.
pub fn cases_stay()
    ensures { CasesStay }
{}

/// No line of an act has an LF, so an LF ends it (own). It does nothing.
pub fn lines_have_no_lf()
    ensures { LinesHaveNoLf }
{}
