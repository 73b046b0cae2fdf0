//! The lines of commands.
ghost use Rattle.std.specs.Prelude.{◌≡◌, ◌↔◌, [], ◌∷◌, map, IsTrue, false, IsOk, IfOk, IfErr, Some, codes};
ghost use Rattle.std.specs.Result.{result_err};
ghost use Rattle.nmvs_identifier.specs.Codes.{is_codes};
ghost use Rattle.nmvs_identifier.specs.Expiry.{is_expiry};
ghost use Rattle.nmvs_identifier.specs.Name.{is_name};
ghost use Rattle.nmvs_rules.specs.Enrolments.{is_if_there};
ghost use Rattle.nmvs_words.specs.Words.{role_word};
ghost use Rattle.nmvs_messages.specs.Commands.{ReadsCommand, command_fields, terms_fields, codes_fields, is_command, fields_fault, is_role, enrol_fault, terms_fault, codes_fault, user_fault};

use crate::fields::fields_of;
use crate::{Command, CommandFault};
use nmvs_identifier::{Codes, Expiry, Name};
use nmvs_rules::{Actor, Enrolment, Role};
use nmvs_words::role_named;

/// Reads a command, given without its LF.
///
/// # Errors
///
/// The first fault of the line.
#[tactic(auto, unfolding(crate::specs::Commands::first_command_fault))]
pub fn read_command(bytes: &[u8]) -> Result<Command, CommandFault>
    ensures { ReadsCommand bytes.now result }
{
    let fields = fields_of(
        bytes,
        CommandFault::Long,
        CommandFault::Bytes,
        CommandFault::Fields,
    )?;
    command_of(&fields)
}

/// The command that has these fields.
///
/// # Errors
///
/// The first fault of the fields.
pub fn command_of(fields: &[&str]) -> Result<Command, CommandFault>
    ensures fields { IfOk result (λ command. command_fields command ≡ map (λ f. f.now) fields.now) }
    ensures valid { IfOk result (λ command. IsTrue (is_command command)) }
    ensures fault { result_err result ≡ fields_fault (map (λ f. f.now) fields.now) }
{
    match fields {
        [] => Err(CommandFault::Word),
        [word, texts @ ..] => match *word {
            "ENROL" => read_enrol(texts),
            "SUSPEND" => Ok(Command::Suspend(read_user(texts)?)),
            "REMOVE" => Ok(Command::Remove(read_user(texts)?)),
            _ => Err(CommandFault::Word),
        },
    }
}

fn read_enrol(texts: &[&str]) -> Result<Command, CommandFault>
    ensures fields { IfOk result (λ command.
        command_fields command ≡ codes "ENROL" ∷ map (λ t. t.now) texts.now) }
    ensures valid { IfOk result (λ command. IsTrue (is_command command)) }
    ensures fault { result_err result ≡ enrol_fault (map (λ t. t.now) texts.now) }
{
    let [user, role, authorisation, premises, terms @ ..] = texts else {
        return Err(CommandFault::Fields);
    };
    let role = read_role(role)?;
    let user = read_name(user, CommandFault::User)?;
    let actor = Actor {
        role,
        authorisation: read_name(authorisation, CommandFault::Authorisation)?,
        premises: read_name(premises, CommandFault::Premises)?,
    };
    let (until, codes) = read_terms(terms)?;
    Ok(Command::Enrol(
        user,
        Enrolment {
            actor,
            until,
            codes,
        },
    ))
}

/// The last day and the products of an enrolment with these texts, the last of its line.
fn read_terms(terms: &[&str]) -> Result<(Option<Expiry>, Option<Codes>), CommandFault>
    ensures fields { IfOk result (λ r. terms_fields r.0 r.1 ≡ map (λ t. t.now) terms.now) }
    ensures until { IfOk result (λ r. IsTrue (is_if_there is_expiry r.0)) }
    ensures products { IfOk result (λ r. IsTrue (is_if_there is_codes r.1)) }
    ensures fault { result_err result ≡ terms_fault (map (λ t. t.now) terms.now) }
{
    let [word, text, rest @ ..] = terms else {
        return Ok((None, read_codes(terms)?));
    };
    if *word != "UNTIL" {
        return Ok((None, read_codes(terms)?));
    }
    let last = read_last(text)?;
    Ok((Some(last), read_codes(rest)?))
}

fn read_last(text: &str) -> Result<Expiry, CommandFault>
    ensures accepts { IsOk result ↔ IsTrue (is_expiry text.now) }
    ensures kept { IfOk result (λ last. last.bytes ≡ text.now) }
    ensures fault { IfErr result (λ told. (told ≡ CommandFault.Until) × (is_expiry text.now ≡ false)) }
{
    Expiry::read(text).or(Err(CommandFault::Until))
}

/// The products of an enrolment with these texts, if they say some.
fn read_codes(texts: &[&str]) -> Result<Option<Codes>, CommandFault>
    ensures fields { IfOk result (λ products. codes_fields products ≡ map (λ t. t.now) texts.now) }
    ensures valid { IfOk result (λ products. IsTrue (is_if_there is_codes products)) }
    ensures fault { result_err result ≡ codes_fault (map (λ t. t.now) texts.now) }
{
    match texts {
        [] => Ok(None),
        [word, text] => Ok(Some(read_products(word, text)?)),
        _ => Err(CommandFault::Fields),
    }
}

fn read_products(word: &str, text: &str) -> Result<Codes, CommandFault>
    ensures fields { IfOk result (λ products. codes_fields (Some products) ≡ word.now ∷ text.now ∷ []) }
    ensures valid { IfOk result (λ products. IsTrue (is_codes products.bytes)) }
    ensures fault { result_err result ≡ codes_fault (word.now ∷ text.now ∷ []) }
{
    if word != "CODES" {
        return Err(CommandFault::Fields);
    }
    Codes::read(text).ok_or(CommandFault::Codes)
}

/// The user whose name stands alone after the word of a command.
fn read_user(texts: &[&str]) -> Result<Name, CommandFault>
    ensures texts { IfOk result (λ user. user.bytes ∷ [] ≡ map (λ t. t.now) texts.now) }
    ensures valid { IfOk result (λ user. IsTrue (is_name user.bytes)) }
    ensures fault { result_err result ≡ user_fault (map (λ t. t.now) texts.now) }
{
    let [user] = texts else {
        return Err(CommandFault::Fields);
    };
    read_name(user, CommandFault::User)
}

#[tactic(auto, unfolding(crate::specs::Commands::is_role))]
fn read_role(word: &str) -> Result<Role, CommandFault>
    ensures accepts { IsOk result ↔ IsTrue (is_role word.now) }
    ensures kept { IfOk result (λ role. role_word role ≡ word.now) }
    ensures fault { IfErr result (λ fault.
        (fault ≡ CommandFault.Role) × (is_role word.now ≡ false)) }
{
    role_named(word).ok_or(CommandFault::Role)
}

fn read_name(text: &str, fault: CommandFault) -> Result<Name, CommandFault>
    ensures accepts { IsOk result ↔ IsTrue (is_name text.now) }
    ensures kept { IfOk result (λ name. name.bytes ≡ text.now) }
    ensures fault { IfErr result (λ told. (told ≡ fault) × (is_name text.now ≡ false)) }
{
    Name::read(text).or(Err(fault))
}
