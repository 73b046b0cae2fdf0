//! Laws of the lines that requests carry.
ghost use Rattle.nmvs_http.specs.BulkLaws.{IsAnsweredByBodies, IsAskedByLines};
ghost use Rattle.nmvs_http.specs.OneLine.{IsAskedByOneLine};

/// A question of JSON is one line: no text of its body begins another line, another field or a tag. It does nothing.
pub fn questions_are_lines()
    ensures { IsAskedByOneLine }
{}

/// A bulk of JSON is the lines of its questions, in order, and its response has the bodies of the answers to them. It does
/// nothing.
pub fn bulks_are_questions()
    ensures lines { IsAskedByLines }
    ensures replies { IsAnsweredByBodies }
{}
