//! The command line: its commands and their arguments as rows, its help, and what it refuses.
use clap::error::ErrorKind;
use clap::{Arg, Command, Error};
use std::alloc::{AllocError, Global};

/// The reason why a command line gives no task.
#[derive(Drop)]
pub(crate) enum OptionFault {
    Memory,
    /// The line is refused, with the text of its fault.
    Refused(String),
    /// The line asks for help or the version, with its text.
    Help(String),
}

impl From<AllocError> for OptionFault {
    fn from(_: AllocError) -> OptionFault {
        OptionFault::Memory
    }
}

const ABOUT: &str =
    "Checks an export of a medicines verification repository: reads it line by line, and judges each stored reply again \
    by the rules. Of a lawful export it prints LAWFUL, the number of lines, how many of them are of which version, and \
    a line for each product code, or what a command asks.";

const STATUS: &str =
    "The status is 0 where the export is lawful, 1 where it is not, and 2 in trouble: the command line is refused, a file \
    cannot be read or written, or memory is refused. The reason is on standard error. Nothing is printed of an export that is \
    not lawful. Of a compressed export: gunzip -c export.gz | nmvs-check list -";

const VERSION: &str = "0.9.0 (reads entry lines of versions 1 to 3)";

/// The command of a line that names none.
pub(crate) const CHECK: &str = "nmvs-check";

/// The other commands, each with what the help says of it.
#[rattlefmt::skip]
static COMMANDS: [(&str, &str); 8] = [
    ("list", "Lists the entries that pass all tests, oldest first; those of one moment are in the order of the export"),
    ("count", "Counts the entries that pass all tests, by what they have in common; the rows are in order of their oldest entries"),
    ("pack", "Lists the entries about a pack, its upload among them, and those that recall or withdraw its batch, oldest first; \
        the last row is the reply that a STATUS of the pack gets at the end of the export"),
    ("packs", "Lists the packs that were uploaded in a batch: the status of each, since when, and by whom"),
    ("report", "Prints the reports of product codes, in order of first appearance"),
    ("compare", "Says whether a new export goes on from an old one: for each product code the lines of the old one about it are, \
        in order, the first lines of the new one about it. If so it prints GOES ON and the status is 0; else it prints the first \
        line of the old one that the new one does not have in its place, with what it has there, and the status is 1. The \
        status is also 1 where one of them is not lawful, and 2 in trouble"),
    ("scan", "Reads each line of standard input as a scan of a pack, and writes a row of CSV: the elements of the pack, or why \
        the scan is not read. The status is 0 where all lines are read, 1 where some are not, and 2 in trouble"),
    ("page", "Writes a page for a browser: files and counts, product codes and batches, alerts by week, the premises with the \
        most flagged alerts, and these, oldest first"),
];

/// Where a line has an argument, and whether it must.
#[derive(Clone, Copy)]
pub(crate) enum Place {
    /// Behind its name, if at all.
    Named,
    /// The same, and not with one of these.
    NotWith(&'static [&'static str]),
    /// Behind its name, always.
    Needed,
    /// By its order, always.
    Alone,
    /// By its order, none or several.
    Several,
}

/// The value of an argument: its names in the help, and what a refused text is not, if there are refused ones.
pub(crate) type Value = (&'static [&'static str], &'static str);

const FLAG: Value = (&[], "");

const DATE: Value = (&["DATE"], "date as 2026-01-31");

const NAME: Value = (&["NAME"], "name");

pub(crate) const CODE: Value = (&["CODE"], "product code");

pub(crate) const SERIAL: Value = (&["SERIAL"], "serial number");

const ALERT: Value = (&["NAME"], "name of an alert, as 09506000134352-17");

const BATCH: Value = (&["BATCH"], "batch");

pub(crate) const PART: Value = (&["I/N"], "part as 0/8");

pub(crate) const BY: Value = (&["PARTS"], "part to count by");

pub(crate) const NATION: Value = (&["NUMBER"], "application identifier of 710 to 716");

/// The commands that take a filter.
const ENTRIES: &[&str] = &["list", "count"];

/// An argument: its name, its place in a line, its value, the commands that take it, and its help.
pub(crate) type Row = (
    &'static str,
    Place,
    Value,
    &'static [&'static str],
    &'static str,
);

/// The arguments of all commands, in the order of the help, in which the values of a filter are read too.
#[rattlefmt::skip]
pub(crate) static ROWS: [Row; 29] = [
    ("files", Place::Several, (&["FILE"], ""), &[CHECK, "list", "count", "pack", "packs", "report", "page"],
        "The files of the export, one after another; standard input where there is none, and where it is -"),
    ("old", Place::Alone, (&["OLD"], ""), &["compare"], "The file of the old export; standard input where it is -"),
    ("new", Place::Alone, (&["NEW"], ""), &["compare"], "The file of the new export; standard input where it is -"),
    ("by", Place::Needed, BY, &["count"],
        "One or several of day, week, month, cause, premises, authorisation, code, user, role, word and reply, with commas between"),
    ("all", Place::Needed, FLAG, &["report"], "Of every product code that some line names"),
    ("output", Place::Needed, (&["PAGE"], ""), &["page"],
        "The file that the page is written to, as page.html: a new one, or an earlier page"),
    ("national", Place::Named, NATION, &["scan"],
        "The application identifier of the national number that each pack has, 710 to 716"),
    ("part", Place::NotWith(&["report", "audit"]), PART, &[CHECK, "list", "count", "report"],
        "Check the lines of the product codes whose number is I modulo N alone, as 0/8, in the memory that these lines take. The N \
        parts together say what one check says, and their counts add up"),
    ("report", Place::Named, CODE, &[CHECK], "Print the report of this product code instead"),
    ("audit", Place::NotWith(&["report"]), (&["CODE", "SERIAL"], ""), &[CHECK],
        "Print the lines about the pack with this product code and serial number instead"),
    ("from", Place::Named, DATE, ENTRIES, "Entries of this day or later, as 2026-01-31, by UTC"),
    ("to", Place::Named, DATE, ENTRIES, "Entries of this day or earlier, by UTC"),
    ("user", Place::Named, NAME, ENTRIES, "Entries of this user"),
    ("role", Place::Named, (&["ROLE"], "role"), ENTRIES, "Entries of users in this role, as PHARMACY"),
    ("authorisation", Place::Named, NAME, ENTRIES, "Entries under this authorisation"),
    ("premises", Place::Named, NAME, ENTRIES, "Entries at these premises"),
    ("code", Place::Named, CODE, ENTRIES, "Entries about this product code"),
    ("code", Place::Needed, CODE, &["pack", "packs"], "The product code"),
    ("serial", Place::Named, SERIAL, ENTRIES, "Entries about packs with this serial number"),
    ("serial", Place::Needed, SERIAL, &["pack"], "The serial number"),
    ("batch", Place::Named, BATCH, ENTRIES, "Entries that name this batch, or a pack that was uploaded in it"),
    ("batch", Place::Needed, BATCH, &["packs"], "The batch"),
    ("word", Place::Named, (&["WORD"], "word of a question"), ENTRIES, "Questions of this kind, as SUPPLY"),
    ("reply", Place::Named, (&["WORD"], "word of a reply"), ENTRIES, "Entries whose reply begins with this word, as ALERT"),
    ("alert", Place::Named, ALERT, ENTRIES, "The alert of this name alone"),
    ("flagged", Place::Named, FLAG, ENTRIES, "Alerts flagged as potential falsifications alone"),
    ("refused", Place::Named, FLAG, ENTRIES, "Refused questions alone"),
    ("csv", Place::Named, FLAG, &["list", "count", "pack", "packs", "report"], "As CSV, with a header"),
    ("json", Place::NotWith(&["csv"]), FLAG, &["list"], "As entry lines, which an export has too"),
];

/// The command line, of the words after the program's own name.
pub(crate) fn command<'a>(alloc: Global) -> Result<Command<'a>, AllocError> {
    let command = Command::new(alloc, CHECK)
        .about(ABOUT)
        .after_help(STATUS)
        .version(VERSION)
        .no_binary_name(true);
    let mut command = with_arguments(alloc, command, CHECK)?;
    for (name, about) in &COMMANDS {
        let subcommand = Command::new(alloc, name).about(about);
        command = command.subcommand(with_arguments(alloc, subcommand, name)?)?;
    }
    Ok(command)
}

/// A command with the arguments that the one of this name takes.
fn with_arguments<'a>(
    alloc: Global,
    command: Command<'a>,
    name: &str,
) -> Result<Command<'a>, AllocError> {
    let mut command = command;
    for row in &ROWS {
        let (_, _, _, commands, _) = row;
        if commands.contains(&name) {
            command = command.arg(argument(alloc, row)?)?;
        }
    }
    Ok(command)
}

fn argument<'a>(alloc: Global, row: &Row) -> Result<Arg<'a>, AllocError> {
    let (name, place, (values, _), _, help) = *row;
    let argument = Arg::new(alloc, name)
        .value_names(values)
        .required(matches!(place, Place::Needed | Place::Alone))
        .help(help);
    match place {
        Place::Alone => Ok(argument),
        Place::Several => Ok(argument.num_args(0..)),
        Place::Named | Place::Needed => Ok(argument.long(name).num_args(values.len())),
        Place::NotWith(others) => argument
            .long(name)
            .num_args(values.len())
            .conflicts_with_all(others),
    }
}

/// The refusal with this text, if there is memory for it.
pub(crate) fn refusal(text: Result<String, AllocError>) -> OptionFault {
    match text {
        Ok(text) => OptionFault::Refused(text),
        Err(AllocError) => OptionFault::Memory,
    }
}

/// The refusal of a text that is no such value.
pub(crate) fn refused(alloc: Global, text: &str, value: Value) -> OptionFault {
    let (_, wanted) = value;
    refusal(format!(in alloc; "error: '{text}' is no {wanted}\n"))
}

/// The fault that the parser found.
pub(crate) fn fault_of(alloc: Global, error: &Error) -> OptionFault {
    match (error.kind(), format!(in alloc; "{error}")) {
        (ErrorKind::OutOfMemory, _) => OptionFault::Memory,
        (ErrorKind::DisplayHelp | ErrorKind::DisplayVersion, Ok(text)) => OptionFault::Help(text),
        (_, text) => refusal(text),
    }
}
