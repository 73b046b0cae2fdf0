//! Laws of rates.
ghost use Rattle.nmvs_rate.specs.Laws.{NeverMore, NeverFewer};

/// In any span of time, a user's lines that are let through are at most the burst and the rate's lines in that span. A
/// line is refused only if it would be one more than that since some moment. It does nothing.
pub fn rates_are_kept()
    ensures more { NeverMore }
    ensures fewer { NeverFewer }
{}
