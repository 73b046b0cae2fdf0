//! The statuses of the program, which are those of grep: 0 for yes, 1 for no, 2 in trouble (own).
ghost use Rattle.std.specs.Prelude.{◌≡◌};
ghost use Rattle.nmvs_check.specs.Status as statuses;

use crate::inspect_fault::InspectFault;
use nmvs_reader::Objection;
use nmvs_record::Finding;

/// The status if an export is bad, as by `status_of`.
pub(crate) const BAD: u8 = 1;

/// The status if nothing is known of the input, or not all of the answer was written.
pub(crate) const TROUBLE: u8 = 2;

/// The status of an answer: 0 if the new export goes on, or all scans are read, and else 1.
pub(crate) fn status_of_answer(holds: bool) -> u8
    ensures { result ≡ statuses.status_of_answer holds }
{
    if holds { 0 } else { 1 }
}

/// The status of a fault: 1 if the input is no export of a lawful trail, and 2 if that is not known, or if
/// it is lawful.
pub(crate) fn status_of(fault: &InspectFault) -> u8
    ensures { result ≡ statuses.status_of fault.now }
{
    match fault {
        InspectFault::Found(Finding::Unended(_)) => 1,
        InspectFault::Found(Finding::Line(_, Objection::Memory)) => 2,
        InspectFault::Found(Finding::Line(..)) => 1,
        InspectFault::Found(Finding::Read) | InspectFault::Answer(_) => 2,
    }
}
