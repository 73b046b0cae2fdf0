//! The faults of lines of scans.
ghost use Rattle.std.specs.Prelude.{Some};
ghost use Rattle.nmvs_check.specs.Scans.{fault_text};

use nmvs_elements::ScanFault;
use std::fmt;

/// The fault of a line of scans that is not read as the code of a pack.
#[derive(Clone, Copy)]
pub(crate) enum LineFault {
    /// It has no bytes.
    Empty,
    /// The input ends before its LF.
    Unended,
    /// It is a scan that is refused.
    Scan(ScanFault),
}

impl fmt::Display for LineFault {
    ghost output = { λ fault. Some (fault_text fault) };

    fn fmt<W: fmt::Write>(&self, f: &mut fmt::Formatter<W>) -> fmt::Result {
        match self {
            LineFault::Empty => f.write_str("the line is empty"),
            LineFault::Unended => f.write_str("the line lacks its LF"),
            LineFault::Scan(fault) => write!(f, "{fault}"),
        }
    }
}
