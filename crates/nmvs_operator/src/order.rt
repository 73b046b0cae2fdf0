//! The operator's orders: a row for each, and the reading of their lines.
ghost use Rattle.std.specs.Prelude.{◌≡◌, [], ◌∷◌, ◌++◌, map, find, option_map, IfOk, OnOk, IfSome, IsTrue, is_some, codes, decimal, string_bytes};
ghost use Rattle.std.specs.List.{flat_map};
ghost use Rattle.std.specs.Result.{result_err};
ghost use Rattle.std.specs.Str.{bytes_eq};
ghost use Rattle.nmvs_messages.specs.Commands.{fields_fault};
ghost use Rattle.nmvs_operator.specs.Orders.{ReadsOrder, order_fields, is_order, order_fault, grammar_of as grammar_named, help_lines, reload_fault, over_fault, trim_fault, is_number, alone_fault, export_fault};

use itoa::Buffer;
use nmvs_messages::{Command, CommandFault, command_of, fields_of};
use std::alloc::{AllocError, Global};

/// The order that a line of the operator gives (own).
#[derive(Clone, Copy)]
pub enum Order<'l> {
    /// A change of the users.
    Change(Command),
    /// The changes of the users file as it is now: with `all` also the enrolments of users who are suspended.
    Reload { all: bool },
    /// The audit trail as it is now, written to the file of this path.
    Export(&'l str),
    /// To take from the engine the blocks of the log up to this number.
    Trim(u64),
    /// The order of fixed words.
    Fixed(Fixed),
}

/// An order of fixed words (own).
#[derive(Clone, Copy)]
pub enum Fixed {
    /// The users that were published, and how they stand.
    Users,
    /// The connections, sessions and entries that the server counts.
    Stats,
    /// The connections of each worker.
    Connections,
    /// The users who have raised most flagged alerts.
    Alerts,
    /// The end of the server.
    Stop,
    /// To answer in place of the server of another machine.
    TakeOver,
    /// To end, so that the server of another machine answers.
    HandOver,
    /// The list of the orders.
    Help,
}

/// The grammar of the texts after the word of an order.
#[derive(Clone, Copy)]
pub(crate) enum Grammar {
    /// Nothing.
    Alone(Fixed),
    /// `OVER`.
    Over(Fixed),
    /// Nothing, or `ALL`.
    Reload,
    /// The path of a file.
    Path,
    /// A number of blocks.
    Blocks,
    /// A user, and its enrolment.
    User,
}

/// A row: the word of an order, the text that `HELP` shows after it, and the grammar of the texts after it.
type Row = (&'static str, &'static str, Grammar);

/// The orders, as `HELP` lists them. The comment on a row is its effect in docs/COMMANDS.md.
const ROWS: &[Row] = &[
    // enrols the user so, in place of an earlier enrolment or suspension ([`UNTIL`, `CODES`](#last-day-and-products))
    (
        "ENROL",
        " user role authorisation premises [UNTIL YYMMDD] [CODES code,code]",
        Grammar::User,
    ),
    // the user's lines are answered `FAULT SUSPENDED`
    ("SUSPEND", " user", Grammar::User),
    // the user's lines are answered `FAULT NOBODY`
    ("REMOVE", " user", Grammar::User),
    // takes the file of `--users` anew
    ("RELOAD", "", Grammar::Reload),
    // the same, and frees suspended users
    ("RELOAD", " ALL", Grammar::Reload),
    // writes the audit trail up to now to this file, with its [digest](FILES.md#digests)
    ("EXPORT", " file", Grammar::Path),
    // lists the users
    ("USERS", "", Grammar::Alone(Fixed::Users)),
    // counts connections, sessions and entries
    ("STATS", "", Grammar::Alone(Fixed::Stats)),
    // counts the connections of each worker
    ("CONNECTIONS", "", Grammar::Alone(Fixed::Connections)),
    // lists the users with most flagged alerts since the start
    ("ALERTS", "", Grammar::Alone(Fixed::Alerts)),
    // ends the server in order
    ("STOP", "", Grammar::Alone(Fixed::Stop)),
    // makes a server that follows [take over](#more-than-one-machine)
    ("TAKE", " OVER", Grammar::Over(Fixed::TakeOver)),
    // ends the owner, so that another takes over
    ("HAND", " OVER", Grammar::Over(Fixed::HandOver)),
    // takes blocks of the log, up to this number, from etcd
    ("TRIM", " blocks", Grammar::Blocks),
    // lists these commands
    ("HELP", "", Grammar::Alone(Fixed::Help)),
];

/// The lines of `HELP`.
///
/// # Errors
///
/// There is no memory for them.
#[tactic(auto, unfolding(crate::specs::Orders::help_lines))]
pub(crate) fn help_text(alloc: Global) -> Result<String, AllocError>
    ensures { IfOk result (λ text. string_bytes text ≡ help_lines) }
{
    rows_text(alloc, ROWS)
}

/// The lines of these rows.
fn rows_text(alloc: Global, rows: &[Row]) -> Result<String, AllocError>
    ensures { IfOk result (λ text. string_bytes text ≡ flat_map (λ row. row.0.now ++ (row.1.now ++ codes "\n")) rows.now) }
{
    let mut text = String::new(alloc);
    for (word, fields, _) in rows {
        text.push_str(word)?;
        text.push_str(fields)?;
        text.push_str("\n")?;
    }
    Ok(text)
}

/// Reads a line of the operator, given without its LF: as the order whose line it is, else with its first fault.
#[tactic(auto, unfolding(crate::specs::Orders::first_order_fault))]
pub fn read_order(line: &[u8]) -> Result<Order<'_>, CommandFault>
    ensures { ReadsOrder line.now result }
{
    let fields = fields_of(
        line,
        CommandFault::Long,
        CommandFault::Bytes,
        CommandFault::Fields,
    )?;
    read_fields(&fields)
}

/// The order that has these fields.
fn read_fields<'l>(fields: &[&'l str]) -> Result<Order<'l>, CommandFault>
    ensures fields { IfOk result (λ order. order_fields order ≡ map (λ f. f.now) fields.now) }
    ensures valid { IfOk result (λ order. IsTrue (is_order order)) }
    ensures fault { result_err result ≡ order_fault (map (λ f. f.now) fields.now) }
{
    match fields {
        [] => Err(CommandFault::Word),
        [word, texts @ ..] => match grammar_of(word) {
            None => Err(CommandFault::Word),
            Some(Grammar::Alone(order)) => {
                stands_alone(texts)?;
                Ok(Order::Fixed(order))
            }
            Some(Grammar::Over(order)) => {
                is_over(texts)?;
                Ok(Order::Fixed(order))
            }
            Some(Grammar::Reload) => read_reload(texts),
            Some(Grammar::Path) => read_export(texts),
            Some(Grammar::Blocks) => read_trim(texts),
            Some(Grammar::User) => read_change(fields),
        },
    }
}

/// The grammar after this word, if it is one of an order.
fn grammar_of(word: &str) -> Option<Grammar>
    ensures { result ≡ grammar_named word.now }
{
    grammar_in(ROWS, word)
}

/// The grammar after this word by these rows.
fn grammar_in(rows: &[Row], word: &str) -> Option<Grammar>
    ensures { result ≡ option_map (λ row. row.2) (find (λ row. bytes_eq word.now row.0.now) rows.now) }
{
    for (name, _, grammar) in rows {
        if word == *name {
            return Some(*grammar);
        }
    }
    None
}

fn read_export<'l>(texts: &[&'l str]) -> Result<Order<'l>, CommandFault>
    ensures fields { IfOk result (λ order.
        order_fields order ≡ codes "EXPORT" ∷ map (λ t. t.now) texts.now) }
    ensures valid { IfOk result (λ order. IsTrue (is_order order)) }
    ensures fault { result_err result ≡ export_fault (map (λ t. t.now) texts.now) }
{
    match texts {
        [path] => Ok(Order::Export(*path)),
        _ => Err(CommandFault::Fields),
    }
}

/// Whether no text comes after a word that stands alone.
fn stands_alone(texts: &[&str]) -> Result<(), CommandFault>
    ensures alone { OnOk result (map (λ t. t.now) texts.now ≡ []) }
    ensures fault { result_err result ≡ alone_fault (map (λ t. t.now) texts.now) }
{
    match texts {
        [] => Ok(()),
        _ => Err(CommandFault::Fields),
    }
}

/// The order to take the users file anew that has these texts after its word.
fn read_reload<'l>(texts: &[&str]) -> Result<Order<'l>, CommandFault>
    ensures fields { IfOk result (λ order.
        order_fields order ≡ codes "RELOAD" ∷ map (λ t. t.now) texts.now) }
    ensures valid { IfOk result (λ order. IsTrue (is_order order)) }
    ensures fault { result_err result ≡ reload_fault (map (λ t. t.now) texts.now) }
{
    match texts {
        [] => Ok(Order::Reload { all: false }),
        [text] => match *text {
            "ALL" => Ok(Order::Reload { all: true }),
            _ => Err(CommandFault::Fields),
        },
        [_, _, ..] => Err(CommandFault::Fields),
    }
}

/// Whether the one text after a word is `OVER`.
fn is_over(texts: &[&str]) -> Result<(), CommandFault>
    ensures over { OnOk result (map (λ t. t.now) texts.now ≡ codes "OVER" ∷ []) }
    ensures fault { result_err result ≡ over_fault (map (λ t. t.now) texts.now) }
{
    match texts {
        [] => Err(CommandFault::Fields),
        [text] => match *text {
            "OVER" => Ok(()),
            _ => Err(CommandFault::Fields),
        },
        [_, _, ..] => Err(CommandFault::Fields),
    }
}

/// The order to trim the log that has these texts after its word.
fn read_trim<'l>(texts: &[&str]) -> Result<Order<'l>, CommandFault>
    ensures fields { IfOk result (λ order.
        order_fields order ≡ codes "TRIM" ∷ map (λ t. t.now) texts.now) }
    ensures valid { IfOk result (λ order. IsTrue (is_order order)) }
    ensures fault { result_err result ≡ trim_fault (map (λ t. t.now) texts.now) }
{
    match texts {
        [text] => match number_in(text) {
            Some(blocks) => Ok(Order::Trim(blocks)),
            None => Err(CommandFault::Fields),
        },
        _ => Err(CommandFault::Fields),
    }
}

/// The number that a text spells in decimal, without a sign and without leading zeros.
fn number_in(text: &str) -> Option<u64>
    ensures digits { IfSome result (λ n. text.now ≡ decimal n) }
    ensures whether { is_some result ≡ is_number text.now }
{
    let Ok(number) = text.parse::<u64>() else {
        return None;
    };
    if Buffer::new().format(number) == text {
        Some(number)
    } else {
        None
    }
}

/// The order to change a user that has these fields.
fn read_change<'l>(fields: &[&str]) -> Result<Order<'l>, CommandFault>
    ensures fields { IfOk result (λ order. order_fields order ≡ map (λ f. f.now) fields.now) }
    ensures valid { IfOk result (λ order. IsTrue (is_order order)) }
    ensures fault { result_err result ≡ fields_fault (map (λ f. f.now) fields.now) }
{
    match command_of(fields) {
        Ok(command) => Ok(Order::Change(command)),
        Err(fault) => Err(fault),
    }
}
