//! The command line: its parser, its help, and what it refuses.
ghost use Rattle.std.specs.Prelude.{IfOk};
ghost use Rattle.nmvs_operator.specs.Options.{IsIn};

use crate::address::{address_in, is_path};
use crate::cluster_name::is_cluster_name;
use crate::options::{
    ADMIN, CLUSTER, ENGINE, FOUND, HTTP, IMPORT, JOURNAL, MACHINE, METRICS, OPTIONS, Options,
    REHEARSAL, Row, STDIN, USERS, Value, values_of,
};
use clap::error::ErrorKind;
use clap::{Arg, ArgAction, ArgMatches, Command, Error, value_parser};
use std::alloc::{AllocError, Global};
use std::net::SocketAddr;
use std::str::FromStr;

const ABOUT: &str =
    "The national medicines verification repository: answers lines of users over connections, and takes commands of its \
    operator on standard input.";

/// The version of the program, and the toolchain that it is built by (own). A program that was built without its proof says the
/// same: the digests of a release name those that the gate passed.
pub const VERSION: &str = "0.9.0 (built by rattle logic dac8208d650f15bf)";

const WITHOUT_OPTIONS: &str =
    "Without any option the program is a rehearsal: one session over standard input and output, with an empty \
    repository and users of its own.";

/// Why a command line gives no options.
#[derive(Drop)]
pub enum OptionFault {
    Memory,
    /// The line is refused, with the text that says why.
    Refused(String),
    /// The line asks for help or the version, with its text.
    Help(String),
}

impl From<AllocError> for OptionFault {
    fn from(_: AllocError) -> OptionFault {
        OptionFault::Memory
    }
}

/// The options of the words after the program's own name.
///
/// # Errors
///
/// The words are no command line, or ask for help or the version; or there is no memory.
pub fn read_options(alloc: Global, words: &[String]) -> Result<Options, OptionFault> {
    match command(alloc)?.try_get_matches_from(words) {
        Ok(matches) => options_of(alloc, &matches),
        Err(error) => Err(fault_of(alloc, &error)),
    }
}

/// The options of a line that the parser took.
fn options_of(alloc: Global, matches: &ArgMatches<'_>) -> Result<Options, OptionFault> {
    let given = Given { alloc, matches };
    judge_together(given)?;
    values_of(given)
}

/// The command line, of the words after the program's own name.
fn command<'a>(alloc: Global) -> Result<Command<'a>, AllocError> {
    let mut command = Command::new(alloc, "nmvs-serve")
        .about(ABOUT)
        .after_help(WITHOUT_OPTIONS)
        .version(VERSION)
        .no_binary_name(true);
    for option in &OPTIONS {
        command = command.arg(argument(alloc, option))?;
    }
    Ok(command)
}

fn argument<'a>(alloc: Global, option: &Row) -> Arg<'a> {
    let argument = Arg::new(alloc, option.name)
        .long(option.name)
        .help(option.help)
        .hide(option.help.is_empty());
    let argument = with_value(argument, option.value);
    match option.default {
        Some(text) => argument.default_value(text),
        None => argument,
    }
}

fn with_value<'a>(argument: Arg<'a>, value: Value) -> Arg<'a> {
    let Some(name) = value.name() else {
        return argument.action(ArgAction::SetTrue);
    };
    let argument = argument.value_name(name);
    match value {
        Value::Word(_, words) => argument.value_parser(words),
        Value::Number(least, most) => argument.value_parser(value_parser!(u64).range(
            bound(least)..=bound(most),
        )),
        _ => argument,
    }
}

/// A bound as the parser takes it.
fn bound(number: u64) -> i64 {
    i64::try_from(number).unwrap_or(i64::MAX)
}

/// A line that the parser took.
#[derive(Clone, Copy)]
pub(crate) struct Given<'m, 'a> {
    pub(crate) alloc: Global,
    matches: &'m ArgMatches<'a>,
}

impl<'m, 'a> Given<'m, 'a> {
    /// Whether the line has an option, or a default stands for it.
    pub(crate) fn has(self, option: &Row) -> bool {
        match option.value {
            Value::Nothing => self.matches.get_flag(option.name),
            _ => self.matches.contains_id(option.name),
        }
    }

    /// The value of an option, as it stands.
    pub(crate) fn str(self, option: &Row) -> Option<&'a str> {
        self.matches.get_str(option.name)
    }

    /// The value of an option, as a text of its own.
    pub(crate) fn text(self, option: &Row) -> Result<Option<String>, AllocError> {
        match self.str(option) {
            Some(text) => Ok(Some(String::from_str(self.alloc, text)?)),
            None => Ok(None),
        }
    }

    /// The value of an option that an address has, if it is the path of a socket in place of one.
    pub(crate) fn path(self, option: &Row) -> Result<Option<String>, AllocError> {
        match self.str(option) {
            Some(text) if is_path(text) => self.text(option),
            _ => Ok(None),
        }
    }

    /// The address of an option, if it is given.
    pub(crate) fn address(self, option: &Row) -> Result<Option<SocketAddr>, OptionFault> {
        let Some(text) = self.str(option) else {
            return Ok(None);
        };
        match address_in(text) {
            Some(address) => Ok(Some(address)),
            None => Err(refused(format!(in self.alloc;
                "error: invalid value '{text}' for '{option}': it is no address with a port, as 127.0.0.1:7161 or [::1]:7161\n"
            ))),
        }
    }

    /// The address of an option, if it is given and is not the path of a socket.
    pub(crate) fn address_or_path(self, option: &Row) -> Result<Option<SocketAddr>, OptionFault> {
        match self.str(option) {
            Some(text) if is_path(text) => Ok(None),
            _ => self.address(option),
        }
    }

    /// The number of an option. The parser takes none but one in its range; the check here shows that to the prover.
    pub(crate) fn number(self, option: &Row) -> Result<u64, OptionFault>
        ensures { IfOk result (IsIn option.now.value) }
    {
        match (option.value, self.matches.get_one::<u64>(option.name)) {
            (Value::Number(least, most), Some(number)) if least <= number && number <= most => {
                Ok(number)
            }
            _ => Err(self.unreadable()),
        }
    }

    /// The value of an option, as its text spells it.
    pub(crate) fn value<T: FromStr>(self, option: &Row) -> Option<T>
    where
        T::Err: Drop,
    {
        self.matches.get_one::<T>(option.name)
    }

    /// The fault of a value that the parser took and that is not what it has to be. No command line has one.
    pub(crate) fn unreadable(self) -> OptionFault {
        refused(String::from_str(self.alloc, "error: an option could not be read\n"))
    }
}

/// The relation of an option to another, with the reason that the fault gives.
#[derive(Clone, Copy)]
enum Clash {
    Needs(&'static str),
    Excludes(&'static str),
}

const FOR_CONNECTIONS: Clash = Clash::Excludes(" is for connections, and");

/// The options that need or exclude others, in the order in which a line is refused for them.
static CLASHES: [(Row, Clash, Row); 12] = [
    (STDIN, FOR_CONNECTIONS, JOURNAL),
    (STDIN, FOR_CONNECTIONS, ADMIN),
    (STDIN, FOR_CONNECTIONS, HTTP),
    (STDIN, FOR_CONNECTIONS, METRICS),
    (CLUSTER, Clash::Needs(""), ENGINE),
    (MACHINE, Clash::Needs(""), ENGINE),
    (FOUND, Clash::Needs(""), ENGINE),
    (ENGINE, Clash::Needs(""), CLUSTER),
    (ENGINE, Clash::Needs(""), MACHINE),
    (ENGINE, Clash::Needs(", the folder of its copy"), JOURNAL),
    (ENGINE, Clash::Needs(", for TAKE OVER"), ADMIN),
    (ENGINE, Clash::Excludes(""), IMPORT),
];

/// Refuses a line whose options lack others or exclude each other, or name no cluster or machine.
fn judge_together(given: Given<'_, '_>) -> Result<(), OptionFault> {
    if given.has(&USERS) == given.has(&REHEARSAL) {
        return Err(refused(format!(in given.alloc;
            "error: one of '{USERS}' and '{REHEARSAL}' is needed, and not both\n"
        )));
    }
    for (option, clash, other) in &CLASHES {
        if given.has(option) {
            judge_clash(given, option, *clash, other)?;
        }
    }
    for option in [&CLUSTER, &MACHINE] {
        judge_name(given, option)?;
    }
    Ok(())
}

/// Refuses a line with an option that needs or excludes another, if it lacks or has the other.
fn judge_clash(
    given: Given<'_, '_>,
    option: &Row,
    clash: Clash,
    other: &Row,
) -> Result<(), OptionFault> {
    match (clash, given.has(other)) {
        (Clash::Needs(why), false) => Err(refused(format!(in given.alloc;
            "error: '{option}' needs '{other}'{why}\n"
        ))),
        (Clash::Excludes(why), true) => Err(refused(format!(in given.alloc;
            "error: '{other}'{why} can't be used with '{option}'\n"
        ))),
        _ => Ok(()),
    }
}

/// Refuses a line with a name of a cluster or a machine that is not one of letters, digits and `-`.
fn judge_name(given: Given<'_, '_>, option: &Row) -> Result<(), OptionFault> {
    match given.str(option) {
        Some(name) if !is_cluster_name(name) => Err(refused(format!(in given.alloc;
            "error: the value of '{option}' is not 1 to 63 letters, digits and -\n"
        ))),
        _ => Ok(()),
    }
}

/// The fault with a text, or of the memory that it lacks.
pub(crate) fn refused(text: Result<String, AllocError>) -> OptionFault {
    match text {
        Ok(text) => OptionFault::Refused(text),
        Err(AllocError) => OptionFault::Memory,
    }
}

fn fault_of(alloc: Global, error: &Error) -> OptionFault {
    if let ErrorKind::OutOfMemory = error.kind() {
        return OptionFault::Memory;
    }
    let Ok(text) = format!(in alloc; "{error}") else {
        return OptionFault::Memory;
    };
    match error.kind() {
        ErrorKind::DisplayHelp | ErrorKind::DisplayVersion => OptionFault::Help(text),
        _ => OptionFault::Refused(text),
    }
}
