//! What a command line asks for.
use crate::command_line::{OptionFault, command, fault_of, refused, refused_line};
use clap::ArgMatches;
use nmvs_identifier::Name;
use std::alloc::{AllocError, Global};
use std::net::{IpAddr, Ipv4Addr, SocketAddr};

/// Who reads over a connection.
#[derive(Clone, Copy)]
pub(crate) enum ReadsAs {
    /// The user whom the header of a gateway names, at the front of the connection.
    Named,
    /// This user.
    User(Name),
}

/// A command line that was taken.
#[derive(Drop)]
pub(crate) struct Options {
    /// The folder of the server's log.
    pub journal: String,
    /// The folder of the cases.
    pub cases: String,
    pub listen: SocketAddr,
    pub reads_as: ReadsAs,
    pub users: Option<String>,
    pub officers: Option<String>,
    pub pages: Option<String>,
}

/// The options of the words after the program's own name.
///
/// # Errors
///
/// The words are no command line, or ask for help or the version, or there is no memory.
pub(crate) fn read_options(alloc: Global, words: &[String]) -> Result<Options, OptionFault> {
    match command(alloc)?.try_get_matches_from(words) {
        Ok(matches) => options_of(alloc, &matches),
        Err(error) => Err(fault_of(alloc, &error)),
    }
}

fn options_of(alloc: Global, given: &ArgMatches<'_>) -> Result<Options, OptionFault> {
    let listen = address_of(alloc, given)?;
    let reads_as = reader_of(alloc, given)?;
    let journal = needed(alloc, given, "journal")?;
    let cases = needed(alloc, given, "cases")?;
    let users = text_of(alloc, given, "users")?;
    let officers = text_of(alloc, given, "officers")?;
    let pages = text_of(alloc, given, "pages")?;
    Ok(Options {
        journal,
        cases,
        listen,
        reads_as,
        users,
        officers,
        pages,
    })
}

/// The text of an argument that a line always has.
fn needed(alloc: Global, given: &ArgMatches<'_>, name: &str) -> Result<String, AllocError> {
    String::from_str(alloc, given.get_str(name).unwrap_or(""))
}

fn text_of(
    alloc: Global,
    given: &ArgMatches<'_>,
    name: &str,
) -> Result<Option<String>, AllocError> {
    match given.get_str(name) {
        Some(text) => Ok(Some(String::from_str(alloc, text)?)),
        None => Ok(None),
    }
}

fn address_of(alloc: Global, given: &ArgMatches<'_>) -> Result<SocketAddr, OptionFault> {
    let text = given.get_str("listen").unwrap_or("");
    match address_in(text) {
        Some(address) => Ok(address),
        None => Err(refused(
            alloc,
            text,
            "address with a port, as 127.0.0.1:7180 or [::1]:7180",
        )),
    }
}

/// The address that a text spells; a port alone is one of 127.0.0.1.
fn address_in(text: &str) -> Option<SocketAddr> {
    match text.parse::<u16>() {
        Ok(port) => Some(SocketAddr::new(IpAddr::V4(Ipv4Addr::new(127, 0, 0, 1)), port)),
        Err(_) => text.parse::<SocketAddr>().ok(),
    }
}

fn reader_of(alloc: Global, given: &ArgMatches<'_>) -> Result<ReadsAs, OptionFault> {
    match (given.get_str("proxy"), given.get_str("as")) {
        (Some("user"), _) => Ok(ReadsAs::Named),
        (Some(text), _) => Err(refused(
            alloc,
            text,
            "kind of certificate: the gateway names that of a user",
        )),
        (None, Some(text)) => match Name::read(text) {
            Ok(name) => Ok(ReadsAs::User(name)),
            Err(_) => Err(refused(alloc, text, "name")),
        },
        (None, None) => Err(refused_line(
            alloc,
            "either '--proxy user' or '--as <NAME>' is wanted",
        )),
    }
}
