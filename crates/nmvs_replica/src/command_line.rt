//! The command line: its arguments as rows, its help, and what it refuses.
use clap::error::ErrorKind;
use clap::{Arg, Command, Error};
use std::alloc::{AllocError, Global};

/// The reason why a command line gives no options.
#[derive(Drop)]
pub(crate) enum OptionFault {
    Memory,
    /// The line is refused, with the text of its fault.
    Refused(String),
    /// The line asks for help or the version, with its text.
    Help(String),
}

impl From<AllocError> for OptionFault {
    fn from(_: AllocError) -> OptionFault {
        OptionFault::Memory
    }
}

const ABOUT: &str =
    "Follows the log of a server, judges each entry again by the rules, and shows flagged alerts and their cases over HTTP. It \
    asks the server nothing, and writes nothing into the folder of its log.";

const STATUS: &str =
    "The status is 2 where the command line is refused, or a file or the address cannot be used. The reason is on standard error.";

const VERSION: &str = "0.9.0 (reads entry lines of versions 1 to 3)";

/// How often a line has an argument.
#[derive(Clone, Copy)]
enum Place {
    /// At most once.
    Named,
    /// Once.
    Needed,
    /// Once, or the other argument in its place.
    InPlaceOf(&'static str),
}

/// An argument: its name, its place, the name of its value, and its help.
type Row = (&'static str, Place, &'static str, &'static str);

/// The arguments, in the order of the help.
#[rattlefmt::skip]
const ROWS: [Row; 8] = [
    ("journal", Place::Needed, "FOLDER", "The folder of the server's log: trail.txt, trail.mark and users.txt are read"),
    ("cases", Place::Needed, "FOLDER", "The folder of cases.txt and looks.txt, which it makes; of one replica alone"),
    ("listen", Place::Needed, "ADDRESS", "Listen here, as 127.0.0.1:7180; a port alone is one of 127.0.0.1"),
    ("users", Place::Named, "FILE", "The users file of the server; the lines of users.txt come behind its own"),
    ("officers", Place::Named, "FILE", "The operator's officers, a name a line"),
    ("proxy", Place::InPlaceOf("as"), "NAME", "Connections come through a gateway that names the certificate, which is that of a user: user"),
    ("as", Place::InPlaceOf("proxy"), "NAME", "Every connection reads as this user"),
    ("pages", Place::Named, "FOLDER", "Serve alerts.html, alerts.js and alerts-words.js of this folder"),
];

/// The command line, of the words after the program's own name.
pub(crate) fn command<'a>(alloc: Global) -> Result<Command<'a>, AllocError> {
    let mut command = Command::new(alloc, "nmvs-replica")
        .about(ABOUT)
        .after_help(STATUS)
        .version(VERSION)
        .no_binary_name(true);
    for row in &ROWS {
        command = command.arg(argument(alloc, row)?)?;
    }
    Ok(command)
}

fn argument<'a>(alloc: Global, row: &Row) -> Result<Arg<'a>, AllocError> {
    let (name, place, value, help) = *row;
    let argument = Arg::new(alloc, name)
        .long(name)
        .value_name(value)
        .help(help);
    match place {
        Place::Named => Ok(argument),
        Place::Needed => Ok(argument.required(true)),
        Place::InPlaceOf(other) => argument.conflicts_with(other),
    }
}

/// The refusal of a text that is not what is wanted.
pub(crate) fn refused(alloc: Global, text: &str, wanted: &str) -> OptionFault {
    match format!(in alloc; "error: '{text}' is no {wanted}\n") {
        Ok(text) => OptionFault::Refused(text),
        Err(AllocError) => OptionFault::Memory,
    }
}

/// The refusal of a line for this reason.
pub(crate) fn refused_line(alloc: Global, reason: &str) -> OptionFault {
    match format!(in alloc; "error: {reason}\n") {
        Ok(text) => OptionFault::Refused(text),
        Err(AllocError) => OptionFault::Memory,
    }
}

/// The fault that the parser found.
pub(crate) fn fault_of(alloc: Global, error: &Error) -> OptionFault {
    if let ErrorKind::OutOfMemory = error.kind() {
        return OptionFault::Memory;
    }
    let Ok(text) = format!(in alloc; "{error}") else {
        return OptionFault::Memory;
    };
    match error.kind() {
        ErrorKind::DisplayHelp | ErrorKind::DisplayVersion => OptionFault::Help(text),
        _ => OptionFault::Refused(text),
    }
}
