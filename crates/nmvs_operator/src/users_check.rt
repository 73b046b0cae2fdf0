//! All faults of a users file, for an operator who corrects it.
ghost use Rattle.std.specs.Prelude.{◌≡◌, ◌++◌, map, IfOk, OnOk, string_bytes};
ghost use Rattle.nmvs_operator.specs.UsersFaults.{shown, line_faults, faults_from, fault_line as line_of_fault, told_faults as lines_of_faults, faults_text as text_of_faults, line_word as word_of_fault, changes_nothing as is_silent};

use crate::LoadFault;
use crate::users::says;
use nmvs_messages::{CommandFault, read_command};
use nmvs_stream::cut_line;
use std::alloc::{AllocError, Global};

/// A line at which a users file is refused (own).
#[derive(Clone, Copy)]
pub struct UsersFault<'f> {
    /// `Line` or `Unended`, with the number of the line.
    pub fault: LoadFault,
    /// The line, without an LF.
    pub line: &'f [u8],
}

/// All faults of the bytes of a users file, in the order of its lines.
///
/// # Errors
///
/// There is no memory for them.
pub fn users_faults(alloc: Global, bytes: &[u8]) -> Result<Vec<UsersFault<'_>>, AllocError>
    ensures { IfOk result (λ faults. map shown faults.items ≡ faults_from 1 bytes.now) }
{
    let mut faults = Vec::new(alloc);
    let mut rest = bytes;
    let mut number = 1;
    while let Some((line, behind)) = cut_line(rest) {
        push_fault(&mut faults, line, number)?;
        rest = behind;
        number += 1;
    }
    if !rest.is_empty() {
        faults.push(UsersFault {
            fault: LoadFault::Unended(number),
            line: rest,
        })?;
    }
    Ok(faults)
}

/// Adds the fault of a line of this number, if it has one.
fn push_fault<'f>(
    faults: &mut Vec<UsersFault<'f>>,
    line: &'f [u8],
    number: usize,
) -> Result<(), AllocError>
    ensures { OnOk result (map shown faults.new.items ≡ map shown faults.old.items ++ line_faults number line.now) }
{
    if !says(line) {
        return Ok(());
    }
    if let Err(fault) = read_command(line) {
        let fault = LoadFault::Line(number, fault);
        faults.push(UsersFault { fault, line })?;
    }
    Ok(())
}

/// The answer to `RELOAD` about the faults of a users file of these bytes: empty if there are none.
///
/// # Errors
///
/// There is no memory for the text.
pub(crate) fn faults_text(alloc: Global, bytes: &[u8]) -> Result<String, AllocError>
    ensures { IfOk result (λ text. string_bytes text ≡ text_of_faults (faults_from 1 bytes.now)) }
{
    let faults = users_faults(alloc, bytes)?;
    if faults.is_empty() {
        return Ok(String::new(alloc));
    }
    let mut text = fault_lines(alloc, &faults)?;
    text.push_str("FAULT USERS\n")?;
    Ok(text)
}

/// The lines about faults for the operator, one for each.
fn fault_lines(alloc: Global, faults: &[UsersFault<'_>]) -> Result<String, AllocError>
    ensures { IfOk result (λ text. string_bytes text ≡ lines_of_faults faults.now) }
{
    let mut text = String::new(alloc);
    for found in faults {
        let line = fault_line(alloc, found)?;
        text.push_str(&line)?;
    }
    Ok(text)
}

/// The line about one fault for the operator: the number of the faulty line, and the word of the fault.
fn fault_line(alloc: Global, found: &UsersFault<'_>) -> Result<String, AllocError>
    ensures { IfOk result (λ text. string_bytes text ≡ line_of_fault (shown found.now)) }
{
    match found.fault {
        LoadFault::Line(number, fault) => {
            let word = fault_word(fault);
            format!(in alloc; "LINE {number} {word}\n")
        }
        LoadFault::Unended(number) => format!(in alloc; "LINE {number} UNENDED\n"),
        LoadFault::Memory | LoadFault::Read => Ok(String::new(alloc)),
    }
}

/// Whether a users file of these bytes changes nothing: each of its lines is blank or a comment.
pub fn changes_nothing(bytes: &[u8]) -> bool
    ensures { result ≡ is_silent bytes.now }
{
    let mut rest = bytes;
    while let Some((line, behind)) = cut_line(rest) {
        if says(line) {
            return false;
        }
        rest = behind;
    }
    true
}

/// The word of the fault of a line, which names a field that is wrong.
fn fault_word(fault: CommandFault) -> &'static str
    ensures { result.now ≡ word_of_fault fault }
{
    match fault {
        CommandFault::Long => "LONG",
        CommandFault::Bytes => "BYTES",
        CommandFault::Fields => "FIELDS",
        CommandFault::Word => "WORD",
        CommandFault::Role => "ROLE",
        CommandFault::User => "USER",
        CommandFault::Authorisation => "AUTHORISATION",
        CommandFault::Premises => "PREMISES",
        CommandFault::Until => "UNTIL",
        CommandFault::Codes => "CODES",
    }
}
