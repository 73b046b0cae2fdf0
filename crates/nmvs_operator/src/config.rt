//! A file of options: TOML, with one key for each option, its long name without dashes.
ghost use Rattle.std.specs.Prelude.{◌≡◌, ◌++◌, ◌≤◌, false, true, map, option_map, length, IfOk, IfErr, OnOk, string_bytes};
ghost use Rattle.std.specs.List.{list_any};
ghost use Rattle.toml.specs.Errors.{IsMemory, IsWithin};
ghost use Rattle.toml.specs.View.{table_view, view};
ghost use Rattle.nmvs_operator.specs.Config as specs;

use crate::options::{Row, Value};
use nmvs_stream::{Failed, Source};
use std::alloc::{AllocError, Global};
use std::io;
use thiserror::Error;
use toml::de::Error as Syntax;
use toml::{Table, Value as Entry};

/// The most bytes of a file of options (own).
const LONGEST_CONFIG: usize = 65_536;

/// The reason why a file of options gives none (own).
#[derive(Debug, Drop, Error)]
pub enum ConfigFault {
    #[error("there is no memory for the options")]
    Memory,
    /// The system's reason why the file cannot be opened.
    #[error("{0}")]
    Open(io::Error),
    #[error("the file cannot be read to its end")]
    Read,
    #[error("the file has more than 65536 bytes")]
    Long,
    #[error("the file is no UTF-8")]
    Utf8,
    /// The text stops being TOML in the line of this number, counted from 1.
    #[error("line {0} is no TOML")]
    Syntax(usize),
    /// The faults of the entries, each with its key, in the order of the keys.
    #[error("an entry is no option")]
    Entries(Vec<(String, EntryFault)>),
}

impl From<AllocError> for ConfigFault {
    ghost use Rattle.std.specs.Prelude.{◌≡◌};
    ghost use Rattle.nmvs_operator.specs.declared.config.ConfigFault.TheVariants.{Memory};

    ghost from_gives = { λ e f. f ≡ Memory };

    fn from(_: AllocError) -> ConfigFault {
        ConfigFault::Memory
    }
}

/// The reason why an entry is no option (own).
#[derive(Clone, Copy, Debug, Error)]
pub enum EntryFault {
    #[error("is no option")]
    Unknown,
    #[error("is for the command line alone")]
    Config,
    #[error("is a table or an array where one value belongs")]
    Nested,
    /// The value is of another type than the option's, which takes this.
    #[error("must be {0}")]
    Mistyped(Value),
}

/// The path of the file that a command line names by its first `--config`.
pub fn config_path(words: &[String]) -> Option<&str>
    ensures { option_map (λ path. path.now) result ≡ specs.config_file (map string_bytes words.now) }
{
    let mut rest = words;
    while let [word, behind @ ..] = rest {
        if word.as_str() == "--config" {
            return match behind {
                [path, ..] => Some(path.as_str()),
                [] => None,
            };
        }
        if let Some(path) = word.as_str().strip_prefix("--config=") {
            return Some(path);
        }
        rest = behind;
    }
    None
}

/// The text of a file of options, read to its end.
///
/// # Errors
///
/// `Read`: a read failed. `Long`: there are more bytes than a file may have. `Utf8`: they are no text. `Memory`: there is
/// no memory.
pub fn read_config<S: Source>(alloc: Global, source: &mut S) -> Result<String, ConfigFault>
    requires source_open { (S.told source.old).ended ≡ false }
    ensures text { IfOk result (λ text.
        (S.told source.new).bytes ≡ (S.told source.old).bytes ++ string_bytes text) }
    ensures short { IfOk result (λ text. length (string_bytes text) ≤ 65_536) }
    ensures ended { OnOk result ((S.told source.new).ended ≡ true) }
    ensures fault { IfErr result (specs.ReadFails (S.told source.old) (S.told source.new)) }
{
    let mut bytes = Vec::new(alloc);
    let mut buffer = [0; 4096];
    while bytes.len() <= LONGEST_CONFIG {
        match source.read(&mut buffer) {
            Err(Failed) => return Err(ConfigFault::Read),
            Ok(0) => return text_of(bytes),
            Ok(count) => bytes.extend_from_slice(&buffer[..count])?,
        }
    }
    Err(ConfigFault::Long)
}

fn text_of(bytes: Vec<u8>) -> Result<String, ConfigFault>
    ensures text { IfOk result (λ text. string_bytes text ≡ bytes.items) }
    ensures fault { IfErr result (specs.IsNoText bytes.items) }
{
    match String::from_utf8(bytes) {
        Ok(text) => Ok(text),
        Err(_) => Err(ConfigFault::Utf8),
    }
}

/// The words of the options of a file's text, in the order of their keys, and after them the words of the command line.
/// The rows say what options there are. The file's words leave out each option that the command line names.
///
/// # Errors
///
/// `Syntax`: the text is no TOML. `Entries`: these entries are no options. `Memory`: there is no memory.
pub fn with_config(
    alloc: Global,
    rows: &[Row],
    text: &str,
    mut words: Vec<String>,
) -> Result<Vec<String>, ConfigFault>
    ensures words { IfOk result (λ all.
        specs.Gives rows.now text.now (map string_bytes words.items) (map string_bytes all.items)) }
    ensures fault { IfErr result (specs.Refuses rows.now text.now) }
{
    let table = match toml::table_from_str(alloc, text) {
        Ok(table) => table,
        Err(error) => return Err(no_toml(text, &error)),
    };
    let faults = all_faults(alloc, rows, &table)?;
    if !faults.is_empty() {
        return Err(ConfigFault::Entries(faults));
    }
    let mut all = file_words(alloc, &table, &words)?;
    all.append(&mut words)?;
    Ok(all)
}

/// The fault of a text that is no TOML, or for which there is no memory.
fn no_toml(text: &str, error: &Syntax) -> ConfigFault
    requires within { IsWithin text.now error.now }
    ensures { specs.TellsText text.now (IsMemory error.now) result }
{
    match error.span() {
        Some(span) => ConfigFault::Syntax(line_at(text, span.start)),
        None => ConfigFault::Memory,
    }
}

/// The line, counted from 1, of a place in a text.
fn line_at(text: &str, place: usize) -> usize
    requires { place ≤ length text.now }
    ensures { specs.IsLineAt text.now place result }
{
    let mut line = 1;
    for byte in &text.as_bytes()[..place] {
        if *byte == b'\n' {
            line += 1;
        }
    }
    line
}

/// All faults of the entries, in the order of their keys.
fn all_faults(
    alloc: Global,
    rows: &[Row],
    table: &Table,
) -> Result<Vec<(String, EntryFault)>, AllocError>
    ensures { IfOk result (λ faults. map (λ f. (string_bytes f.0, f.1)) faults.items
        ≡ specs.all_faults rows.now (table_view table.now)) }
{
    let mut faults = Vec::new(alloc);
    for (key, entry) in table {
        if let Some(fault) = entry_fault(rows, key.as_str(), entry) {
            let key = String::from_str(alloc, key.as_str())?;
            faults.push((key, fault))?;
        }
    }
    Ok(faults)
}

/// The fault of an entry, if it has one.
fn entry_fault(rows: &[Row], key: &str, entry: &Entry) -> Option<EntryFault>
    ensures { result ≡ specs.entry_fault rows.now key.now (view entry.now) }
{
    match key {
        "config" => Some(EntryFault::Config),
        "check" => Some(EntryFault::Unknown),
        _ => match value_of(rows, key) {
            Some(value) => value_fault(value, entry),
            None => Some(EntryFault::Unknown),
        },
    }
}

/// The value of the option of this name, if there is one.
fn value_of(rows: &[Row], name: &str) -> Option<Value>
    ensures { result ≡ specs.value_of rows.now name.now }
{
    for row in rows {
        if name == row.name {
            return Some(row.value);
        }
    }
    None
}

/// The fault of an entry of an option that takes this value, if it has one.
fn value_fault(value: Value, entry: &Entry) -> Option<EntryFault>
    ensures { result ≡ specs.value_fault value (view entry.now) }
{
    match (value, entry) {
        (_, Entry::Array(_) | Entry::Table(_)) => Some(EntryFault::Nested),
        (Value::Text(_) | Value::Word(..) | Value::Address, Entry::String(_)) => None,
        (Value::Number(..) | Value::Address, Entry::Integer(_)) => None,
        (Value::Nothing, Entry::Boolean(_)) => None,
        _ => Some(EntryFault::Mistyped(value)),
    }
}

/// The words of the entries, without those that the command line names.
fn file_words(alloc: Global, table: &Table, line: &[String]) -> Result<Vec<String>, AllocError>
    ensures { IfOk result (λ words. map string_bytes words.items
        ≡ specs.file_words (map string_bytes line.now) (table_view table.now)) }
{
    let mut words = Vec::new(alloc);
    for (key, entry) in table {
        if !is_named(line, key.as_str()) {
            push_entry(alloc, &mut words, key.as_str(), entry)?;
        }
    }
    Ok(words)
}

/// Whether one of these words names the option of this key.
fn is_named(words: &[String], key: &str) -> bool
    ensures { result ≡ list_any (specs.names key.now) (map string_bytes words.now) }
{
    match words {
        [] => false,
        [word, rest @ ..] => names(word.as_str(), key) || is_named(rest, key),
    }
}

/// Whether a word names the option of this key: two dashes and the key, and then nothing or `=`.
fn names(word: &str, key: &str) -> bool
    ensures { result ≡ specs.names key.now word.now }
{
    match word.as_bytes().strip_prefix(b"--") {
        Some(rest) => match rest.strip_prefix(key.as_bytes()) {
            Some([]) => true,
            Some([first, ..]) => *first == b'=',
            None => false,
        },
        None => false,
    }
}

/// Adds the words of an entry that has no fault: one, or none if a flag is not given.
fn push_entry(
    alloc: Global,
    words: &mut Vec<String>,
    key: &str,
    entry: &Entry,
) -> Result<(), AllocError>
    ensures { OnOk result (map string_bytes words.new.items
        ≡ map string_bytes words.old.items ++ specs.entry_words key.now (view entry.now)) }
{
    let word = match entry {
        Entry::String(text) => format!(in alloc; "--{key}={text}")?,
        Entry::Integer(number) => format!(in alloc; "--{key}={number}")?,
        Entry::Boolean(true) => format!(in alloc; "--{key}")?,
        _ => return Ok(()),
    };
    words.push(word)?;
    Ok(())
}
