//! The faults of an inspection.
use nmvs_inspect::AnswerFault;
use nmvs_protocol::reply_text;
use nmvs_reader::Objection;
use nmvs_record::Finding;
use nmvs_rules::Reply;
use std::alloc::{AllocError, Global};

/// A fault of an inspection, or of the answer to scans.
#[derive(Clone, Copy)]
pub(crate) enum InspectFault {
    /// The input is no export of a lawful trail, or was not read to its end.
    Found(Finding),
    /// The answer was not written to its end.
    Answer(AnswerFault),
}

/// The text of a fault, without LF (own).
///
/// # Errors
///
/// There is no memory for the text.
pub(crate) fn fault_text(alloc: Global, fault: &InspectFault) -> Result<String, AllocError> {
    match fault {
        InspectFault::Answer(fault) => format!(in alloc; "{fault}"),
        InspectFault::Found(Finding::Line(number, objection)) => {
            line_text(alloc, *number, objection)
        }
        InspectFault::Found(finding) => format!(in alloc; "{finding}"),
    }
}

fn line_text(alloc: Global, number: usize, objection: &Objection) -> Result<String, AllocError> {
    match objection {
        Objection::Memory => format!(in alloc; "out of memory at line {number}"),
        Objection::Long => format!(in alloc; "line {number} has more than 1,000 bytes"),
        Objection::Unlawful { stored, rules } => unlawful_text(alloc, number, stored, rules),
        Objection::Bytes => format!(in alloc;
            "line {number} is no entry line: {objection} (is the file compressed?)"
        ),
        Objection::Repeated => format!(in alloc; "line {number} was asked before with its tag"),
        _ => format!(in alloc; "line {number} is no entry line: {objection}"),
    }
}

fn unlawful_text(
    alloc: Global,
    number: usize,
    stored: &Reply,
    rules: &Reply,
) -> Result<String, AllocError> {
    let stored = reply_text(alloc, stored, &[])?;
    let rules = reply_text(alloc, rules, &[])?;
    format!(in alloc;
        "line {number} is unlawful: stored {}, the rules give {}",
        stored.trim_end(),
        rules.trim_end()
    )
}
