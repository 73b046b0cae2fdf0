//! The task that a command line asks for.
use crate::command_line::{
    BY, CHECK, CODE, NATION, OptionFault, PART, ROWS, SERIAL, Value, command, fault_of, refusal,
    refused,
};
use crate::request::Request;
use clap::ArgMatches;
use nmvs_elements::National;
use nmvs_identifier::{Batch, Name, Pack, ProductCode, Serial};
use nmvs_inspect::{By, Filter, Form, read_date};
use nmvs_parts::Part;
use nmvs_reports::AlertName;
use nmvs_words::{QuestionKind, ReplyKind, role_named};
use std::alloc::{AllocError, Global};
use std::fmt::Display;

/// The task that a command line asks for (own).
#[derive(Drop)]
pub(crate) enum Asked<'a> {
    /// To inspect an export.
    Inspection(Options<'a>),
    /// To write a page for a browser to the file of this path, of the export in these files.
    Page { path: &'a str, files: Vec<&'a str> },
    /// To compare two exports, by their paths; `-` is standard input.
    Comparison { old: &'a str, new: &'a str },
    /// To read lines of scans, with the national number of this nation.
    Scans(Option<National>),
}

/// A command line that was taken, and asks for an inspection (own).
#[derive(Drop)]
pub(crate) struct Options<'a> {
    /// Paths of the files of the export, one after another. The path `-` is standard input, and so is an empty list.
    pub files: Vec<&'a str>,
    /// The part of the export that is inspected; None is the whole.
    pub part: Option<Part>,
    pub request: Request,
}

/// The task that the words after the program's own name ask for.
///
/// # Errors
///
/// The words are no command line, or ask for help or the version, or there is no memory.
pub(crate) fn read_options<'a>(
    alloc: Global,
    words: &'a [String],
) -> Result<Asked<'a>, OptionFault> {
    match command(alloc)?.try_get_matches_from(words) {
        Ok(matches) => asked_of(alloc, &matches),
        Err(error) => Err(fault_of(alloc, &error)),
    }
}

fn asked_of<'a>(alloc: Global, matches: &ArgMatches<'a>) -> Result<Asked<'a>, OptionFault> {
    let (command, asked) = matches.subcommand().unwrap_or((CHECK, matches));
    match command {
        "compare" => comparison_of(alloc, asked),
        "page" => Ok(Asked::Page {
            path: text_of(asked, "output"),
            files: files_of(alloc, asked)?,
        }),
        "scan" => Ok(Asked::Scans(nation_of(alloc, asked)?)),
        _ => {
            let request = request_of(alloc, command, asked)?;
            let part = part_in(alloc, matches)?;
            let files = files_of(alloc, asked)?;
            Ok(Asked::Inspection(Options {
                files,
                part,
                request,
            }))
        }
    }
}

fn comparison_of<'a>(alloc: Global, asked: &ArgMatches<'a>) -> Result<Asked<'a>, OptionFault> {
    match (text_of(asked, "old"), text_of(asked, "new")) {
        ("-", "-") => Err(refusal(String::from_str(
            alloc,
            "error: only one of two exports can be standard input\n",
        ))),
        (old, new) => Ok(Asked::Comparison { old, new }),
    }
}

/// The text of an argument that a line always has.
fn text_of<'a>(asked: &ArgMatches<'a>, name: &str) -> &'a str {
    asked.get_str(name).unwrap_or("")
}

fn files_of<'a>(alloc: Global, asked: &ArgMatches<'a>) -> Result<Vec<&'a str>, AllocError> {
    match asked.get_strs("files") {
        Some(paths) => paths.to_vec(alloc),
        None => Ok(Vec::new(alloc)),
    }
}

fn nation_of(alloc: Global, asked: &ArgMatches<'_>) -> Result<Option<National>, OptionFault> {
    let Some(text) = asked.get_str("national") else {
        return Ok(None);
    };
    Ok(Some(wanted(alloc, text, NATION, read_nation(text))?))
}

fn read_nation(text: &str) -> Option<National> {
    National::new(text.parse().ok()?)
}

/// The part that the options name, behind the command that they belong to.
fn part_in(alloc: Global, matches: &ArgMatches<'_>) -> Result<Option<Part>, OptionFault> {
    let before = part_of(alloc, matches)?;
    match (matches.subcommand(), before) {
        (None, part) => Ok(part),
        (Some((_, asked)), None) => part_of(alloc, asked),
        (Some(_), Some(_)) => Err(refusal(String::from_str(
            alloc,
            "error: '--part' is wanted behind the command\n",
        ))),
    }
}

fn part_of(alloc: Global, asked: &ArgMatches<'_>) -> Result<Option<Part>, OptionFault> {
    let Some(text) = asked.get_str("part") else {
        return Ok(None);
    };
    Ok(Some(wanted(alloc, text, PART, read_part(text))?))
}

fn read_part(text: &str) -> Option<Part> {
    let (index, count) = text.split_once('/')?;
    Part::new(index.parse().ok()?, count.parse().ok()?)
}

/// The value that was read of a text, or the refusal of the text.
fn wanted<T: Copy>(
    alloc: Global,
    text: &str,
    value: Value,
    read: Option<T>,
) -> Result<T, OptionFault> {
    match read {
        Some(value) => Ok(value),
        None => Err(refused(alloc, text, value)),
    }
}

fn request_of(
    alloc: Global,
    command: &str,
    asked: &ArgMatches<'_>,
) -> Result<Request, OptionFault> {
    let (filter, form) = (filter_of(alloc, asked)?, form_of(asked));
    match (command, filter.code, filter.serial, filter.batch) {
        ("list", ..) => Ok(Request::List(filter, form)),
        ("count", ..) => Ok(Request::Count(filter, by_of(alloc, asked)?, form)),
        ("pack", Some(code), Some(serial), _) => Ok(Request::Story(Pack { code, serial }, form)),
        ("packs", Some(code), _, Some(batch)) => Ok(Request::Packs(code, batch, form)),
        ("report", ..) => Ok(Request::Reports(form)),
        _ => lookup_of(alloc, asked),
    }
}

fn lookup_of(alloc: Global, asked: &ArgMatches<'_>) -> Result<Request, OptionFault> {
    if let Some(code) = asked.get_str("report") {
        return Ok(Request::Report(read(alloc, code, CODE, ProductCode::read(code))?));
    }
    match asked.get_strs("audit") {
        Some([code, serial]) => Ok(Request::Audit(Pack {
            code: read(alloc, code, CODE, ProductCode::read(code))?,
            serial: read(alloc, serial, SERIAL, Serial::read(serial))?,
        })),
        _ => Ok(Request::Summary),
    }
}

/// The value that was read of a text, or the refusal of the text, with its fault.
fn read<T: Copy, E: Display + Copy>(
    alloc: Global,
    text: &str,
    value: Value,
    read: Result<T, E>,
) -> Result<T, OptionFault> {
    let (_, wanted) = value;
    match read {
        Ok(value) => Ok(value),
        Err(fault) => Err(refusal(format!(in alloc; "error: '{text}' is no {wanted}: {fault}\n"))),
    }
}

/// The form that the options name.
fn form_of(asked: &ArgMatches<'_>) -> Form {
    match (asked.get_flag("json"), asked.get_flag("csv")) {
        (true, _) => Form::Json,
        (_, true) => Form::Csv,
        _ => Form::Table,
    }
}

/// The parts that the options name, by which entries are counted.
fn by_of(alloc: Global, asked: &ArgMatches<'_>) -> Result<Vec<By>, OptionFault> {
    let mut parts = Vec::new(alloc);
    for word in text_of(asked, "by").split(',') {
        let part = wanted(alloc, word, BY, By::named(word))?;
        parts.push(part).map_err(|_| AllocError)?;
    }
    Ok(parts)
}

/// The filter that the options name.
fn filter_of(alloc: Global, asked: &ArgMatches<'_>) -> Result<Filter, OptionFault> {
    let mut filter = Filter::new();
    filter.flagged = asked.get_flag("flagged");
    filter.refused = asked.get_flag("refused");
    for (name, _, value, _, _) in &ROWS {
        if let Some(text) = asked.get_str(name) {
            if !takes(alloc, &mut filter, name, text)? {
                return Err(refused(alloc, text, *value));
            }
        }
    }
    Ok(filter)
}

/// Reads the text of an option into a filter that has it. It is false if the text is no value of the option.
fn takes(alloc: Global, filter: &mut Filter, name: &str, text: &str) -> Result<bool, AllocError> {
    Ok(match name {
        "from" => put(&mut filter.from, read_date(alloc, text)?),
        "to" => put(&mut filter.to, read_date(alloc, text)?),
        "user" => put(&mut filter.user, Name::read(text).ok()),
        "role" => put(&mut filter.role, role_named(text)),
        "authorisation" => put(&mut filter.authorisation, Name::read(text).ok()),
        "premises" => put(&mut filter.premises, Name::read(text).ok()),
        "code" => put(&mut filter.code, ProductCode::read(text).ok()),
        "serial" => put(&mut filter.serial, Serial::read(text).ok()),
        "batch" => put(&mut filter.batch, Batch::read(text).ok()),
        "word" => put(&mut filter.question, QuestionKind::named(text)),
        "alert" => put(&mut filter.alert, AlertName::read(text)),
        "reply" => put(&mut filter.reply, ReplyKind::named(text)),
        _ => true,
    })
}

/// Writes what was read, and says whether anything was.
fn put<T: Copy>(place: &mut Option<T>, read: Option<T>) -> bool {
    *place = read;
    read.is_some()
}
