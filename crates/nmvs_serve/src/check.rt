//! The check of `--check`, which prints all faults of the users file. Nothing is started.
use crate::report::{ended, say};
use nmvs_log::LogFormat;
use nmvs_operator::{LoadFault, Options, UsersFault, changes_nothing, users_faults, users_trouble};
use nmvs_server::Fault;
use std::fs;
use std::process::ExitCode;
use std::rt::{Clock, Files};

/// Whether the words of a command line ask for the check.
pub(crate) fn asks_check(words: &[String]) -> bool {
    words.iter().any(|word| word.as_str() == "--check")
}

/// Prints each fault of the users file of the options, and a warning if the file names no user. It returns the status of a
/// start with it.
pub(crate) fn check_users<R: Files + Eprint + Clock + AllocGlobal>(
    rt: &R,
    options: &Options,
) -> ExitCode {
    let format = options.log_format;
    let Some(path) = &options.users else {
        return ExitCode::SUCCESS;
    };
    let Ok(bytes) = fs::read(rt, path) else {
        say(rt, format, "nmvs-serve", format_args!("cannot read {path}"));
        return ExitCode::from(1);
    };
    match users_faults(rt.alloc(), &bytes) {
        Ok(faults) => {
            if changes_nothing(&bytes) {
                let warning = format_args!("the users file {path} names no user");
                say(rt, format, "nmvs-serve", warning);
            }
            say_all(rt, format, &faults)
        }
        Err(_) => ended(rt, format, &[Some(Fault::Memory)]),
    }
}

/// Prints the faults of a users file, each with its line in quotes.
fn say_all<R: Eprint + Clock>(rt: &R, format: LogFormat, faults: &[UsersFault<'_>]) -> ExitCode {
    let mut status = ExitCode::SUCCESS;
    for found in faults {
        say_fault(rt, format, found);
        status = ExitCode::from(1);
    }
    status
}

/// Prints a fault of a users file, with its line in quotes.
fn say_fault<R: Eprint + Clock>(rt: &R, format: LogFormat, found: &UsersFault<'_>) {
    let line = found.line.escape_ascii();
    let opening = "nmvs-serve";
    match found.fault {
        LoadFault::Line(number, fault) => {
            let trouble = users_trouble(fault);
            say(
                rt,
                format,
                opening,
                format_args!("users line {number}: {trouble}: \"{line}\""),
            );
        }
        LoadFault::Unended(number) => {
            say(
                rt,
                format,
                opening,
                format_args!("users line {number}: it has no end: UNENDED: \"{line}\""),
            );
        }
        LoadFault::Memory | LoadFault::Read => {}
    }
}
