//! Laws of headers.
ghost use Rattle.nmvs_gateway.specs.Header.{OneReading, LooksNotBehind, EndsThere};

/// Bytes are read as a header in one way only. Bytes after a header change nothing. A reader that reads only the missing
/// bytes reads none after the header. It does nothing.
pub fn headers_are_read()
    ensures one { OneReading }
    ensures behind { LooksNotBehind }
    ensures end { EndsThere }
{}
