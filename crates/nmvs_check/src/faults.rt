//! Faults on standard error, each with the status of the program.
use crate::command_line::OptionFault;
use crate::inspect_fault::{InspectFault, fault_text};
use crate::output::Output;
use crate::status::{BAD, TROUBLE, status_of};
use nmvs_inspect::AnswerFault;
use std::alloc::{AllocError, Global};
use std::process::ExitCode;
use std::rt::HostRuntime;

/// Prints a fault, and returns the status of trouble.
pub(crate) fn fail(rt: &HostRuntime, fault: &str) -> ExitCode {
    let _ = eprintln!(rt; "{fault}");
    ExitCode::from(TROUBLE)
}

/// Prints why a command line gives no task, and returns the status, which is 0 for help and the version.
pub(crate) fn fail_line(rt: &HostRuntime, fault: &OptionFault) -> ExitCode {
    match fault {
        OptionFault::Memory => fail(rt, "out of memory"),
        OptionFault::Refused(text) => {
            let _ = eprint!(rt; "{text}");
            ExitCode::from(TROUBLE)
        }
        OptionFault::Help(text) => {
            let _ = print!(rt; "{text}");
            ExitCode::SUCCESS
        }
    }
}

/// Prints the fault of a file, and returns the status of trouble.
pub(crate) fn fail_file(rt: &HostRuntime, path: &str, fault: &str) -> ExitCode {
    let _ = eprintln!(rt; "the file {path} {fault}");
    ExitCode::from(TROUBLE)
}

/// Prints why an answer was not written to its end, unless its reader left, and returns the status of trouble.
pub(crate) fn fail_answer(rt: &HostRuntime, output: &Output, fault: AnswerFault) -> ExitCode {
    if !output.is_left {
        let _ = eprintln!(rt; "{fault}");
    }
    ExitCode::from(TROUBLE)
}

/// Prints the fault of an export, and returns its status. The fault is that of the file whose digest is not the stored one, if
/// there is such a file. Else it comes after the name of the export, if this is one of two.
pub(crate) fn fail_export(
    rt: &HostRuntime,
    alloc: Global,
    differing: Option<&str>,
    name: Option<&str>,
    fault: &InspectFault,
) -> ExitCode {
    if let Some(path) = differing {
        let _ = eprintln!(rt; "the digest of {path} is not the one in {path}.sha256");
        return ExitCode::from(BAD);
    }
    match fault_text(alloc, fault) {
        Ok(text) => {
            print_after(rt, name, &text);
            ExitCode::from(status_of(fault))
        }
        Err(AllocError) => fail(rt, "out of memory"),
    }
}

fn print_after(rt: &HostRuntime, name: Option<&str>, text: &str) {
    let _ = match name {
        Some(name) => eprintln!(rt; "{name}: {text}"),
        None => eprintln!(rt; "{text}"),
    };
}
