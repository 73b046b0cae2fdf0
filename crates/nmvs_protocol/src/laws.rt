//! Laws of lines.
ghost use Rattle.nmvs_protocol.specs.Lines.{OneReading, EachIsRead, OneSpelling, ShortLines};

/// Each line is read from its text, and in one way only. Different lines have different texts, and no line is too long. The
/// call does nothing.
pub fn lines_are_read()
    ensures each { EachIsRead }
    ensures one { OneReading }
    ensures spelling { OneSpelling }
    ensures short { ShortLines }
{}
