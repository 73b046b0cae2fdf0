//! The users and their states, as lines and as numbers for the operator.
ghost use Rattle.std.specs.Prelude.{◌≡◌, ◌≤◌, ◌+◌, ◌∷◌, List, IfOk, cond, length, map, string_bytes};
ghost use Rattle.nmvs_identifier.specs.Name.{Name as TheName};
ghost use Rattle.nmvs_directory.specs.declared.standing.Standing.{Standing as TheStanding};
ghost use Rattle.std.specs.List.{filter};
ghost use Rattle.nmvs_directory.specs.Registrar.{published};
ghost use Rattle.nmvs_directory.specs.Users.{users_of};
ghost use Rattle.nmvs_messages.specs.Commands.{enrolment_words};
ghost use Rattle.nmvs_operator.specs.Roll.{stands_enrolled, stands_suspended, is_enrolled, is_suspended, user_line as line_of_user, user_lines, changed_from, same_standing, one_changed as count_one_changed};
ghost use Rattle.nmvs_rules.specs.Enrolments.{same_enrolment, same_if_there};

use nmvs_directory::{Naming, Registrar, Standing};
use nmvs_identifier::{Codes, Expiry, Name};
use nmvs_rules::Enrolment;
use nmvs_words::role_word;
use std::alloc::{AllocError, Allocator, Global};
use std::sync::Wait;

/// The numbers of users by state.
#[derive(Clone, Copy)]
pub struct UserCounts {
    pub enrolled: u64,
    pub suspended: u64,
}

/// Counts the published users by state. A removed user does not count.
pub fn count_users<J: Naming, R: Wait + Drop, A: Allocator>(
    registrar: &Registrar<J, R, A>,
) -> UserCounts
    ensures enrolled { result.enrolled ≡ length (filter is_enrolled (users_of (published registrar.now))) }
    ensures suspended { result.suspended ≡ length (filter is_suspended (users_of (published registrar.now))) }
{
    let (mut enrolled, mut suspended) = (0, 0);
    for place in 0..registrar.user_count() {
        match registrar.user(place) {
            Some(user) => {
                let one = count_one(&user.1);
                enrolled += one.enrolled;
                suspended += one.suspended;
            }
            None => {}
        }
    }
    UserCounts {
        enrolled,
        suspended,
    }
}

/// Counts one user of this state.
fn count_one(standing: &Standing) -> UserCounts
    ensures enrolled { result.enrolled ≡ cond (stands_enrolled standing.now) 1 0 }
    ensures suspended { result.suspended ≡ cond (stands_suspended standing.now) 1 0 }
    ensures few { (result.enrolled ≤ 1) × (result.suspended ≤ 1) }
{
    let (enrolled, suspended) = match standing {
        Standing::Enrolled(_) => (1, 0),
        Standing::Suspended(_) => (0, 1),
        Standing::Removed => (0, 0),
    };
    UserCounts {
        enrolled,
        suspended,
    }
}

/// The states of the published users, in the order in which they were first named.
///
/// # Errors
///
/// There is no memory for them.
pub(crate) fn standings<J: Naming, R: Wait + Drop, A: Allocator>(
    alloc: Global,
    registrar: &Registrar<J, R, A>,
) -> Result<Vec<Standing>, AllocError>
    ensures { IfOk result (λ states. states.items ≡ map (λ user. user.1) (users_of (published registrar.now))) }
{
    let mut states = Vec::new(alloc);
    for place in 0..registrar.user_count() {
        match registrar.user(place) {
            Some(user) => states.push(user.1)?,
            None => {}
        }
    }
    Ok(states)
}

/// Counts the published users whose state is another than before. A user whom nobody had named was as if removed.
pub(crate) fn count_changed<J: Naming, R: Wait + Drop, A: Allocator>(
    before: &[Standing],
    registrar: &Registrar<J, R, A>,
) -> u64
    ensures { result ≡ changed_from before.now (users_of (published registrar.now)) }
{
    let mut changed = 0;
    let mut rest = before;
    for place in 0..registrar.user_count() {
        match registrar.user(place) {
            Some(user) => {
                let (one, behind) = next_changed(rest, &user);
                changed += one;
                rest = behind;
            }
            None => {}
        }
    }
    changed
}

/// 1 if the user's state differs from the first of these, else 0; and the other states. Without a first one, the state
/// is compared with that of a removed user.
fn next_changed<'s>(before: &'s [Standing], user: &(Name, Standing)) -> (u64, &'s [Standing])
    ensures count { (users : List (TheName × TheStanding)) → changed_from before.now (user.now ∷ users)
        ≡ result.0 + changed_from result.1.now users }
    ensures few { result.0 ≤ 1 }
{
    match before.split_first() {
        None => (one_changed(&Standing::Removed, &user.1), before),
        Some((first, behind)) => (one_changed(first, &user.1), behind),
    }
}

/// 1 if the states differ, else 0.
fn one_changed(before: &Standing, now: &Standing) -> u64
    ensures count { result ≡ count_one_changed before.now now.now }
    ensures few { result ≤ 1 }
{
    if is_same(before, now) { 0 } else { 1 }
}

fn is_same(before: &Standing, now: &Standing) -> bool
    ensures { result ≡ same_standing before.now now.now }
{
    match (before, now) {
        (Standing::Enrolled(a), Standing::Enrolled(b)) => is_alike(a, b),
        (Standing::Suspended(Some(a)), Standing::Suspended(Some(b))) => is_alike(a, b),
        (Standing::Suspended(None), Standing::Suspended(None)) => true,
        (Standing::Removed, Standing::Removed) => true,
        _ => false,
    }
}

fn is_alike(one: &Enrolment, other: &Enrolment) -> bool
    ensures { result ≡ same_enrolment one.now other.now }
{
    one.actor == other.actor
        && is_same_day(&one.until, &other.until)
        && are_same_codes(&one.codes, &other.codes)
}

fn is_same_day(one: &Option<Expiry>, other: &Option<Expiry>) -> bool
    ensures { result ≡ same_if_there one.now other.now }
{
    match (one, other) {
        (Some(one), Some(other)) => *one == *other,
        (None, None) => true,
        _ => false,
    }
}

fn are_same_codes(one: &Option<Codes>, other: &Option<Codes>) -> bool
    ensures { result ≡ same_if_there one.now other.now }
{
    match (one, other) {
        (Some(one), Some(other)) => *one == *other,
        (None, None) => true,
        _ => false,
    }
}

/// The lines of the published users, one for each that is not removed, in the order in which they were first named.
///
/// # Errors
///
/// There is no memory for the text.
pub(crate) fn users_text<J: Naming, R: Wait + Drop, A: Allocator>(
    alloc: Global,
    registrar: &Registrar<J, R, A>,
) -> Result<String, AllocError>
    ensures { IfOk result (λ text. string_bytes text ≡ user_lines (users_of (published registrar.now))) }
{
    let mut text = String::new(alloc);
    for place in 0..registrar.user_count() {
        match registrar.user(place) {
            Some(user) => {
                let line = user_line(alloc, &user.0, &user.1)?;
                text.push_str(&line)?;
            }
            None => {}
        }
    }
    Ok(text)
}

fn user_line(alloc: Global, name: &Name, standing: &Standing) -> Result<String, AllocError>
    ensures { IfOk result (λ text. string_bytes text ≡ line_of_user (name.now, standing.now)) }
{
    let name = name.text();
    match standing {
        Standing::Enrolled(enrolment) => {
            let words = enrolment_text(alloc, enrolment)?;
            format!(in alloc; "USER {name} {words}\n")
        }
        Standing::Suspended(Some(enrolment)) => {
            let words = enrolment_text(alloc, enrolment)?;
            format!(in alloc; "USER {name} {words} SUSPENDED\n")
        }
        Standing::Suspended(None) => format!(in alloc; "USER {name} SUSPENDED\n"),
        Standing::Removed => Ok(String::new(alloc)),
    }
}

/// The words of an enrolment, as they follow its user in a command.
///
/// # Errors
///
/// There is no memory for the text.
pub fn enrolment_text(alloc: Global, enrolment: &Enrolment) -> Result<String, AllocError>
    ensures { IfOk result (λ text. string_bytes text ≡ enrolment_words enrolment.now) }
{
    let actor = &enrolment.actor;
    let role = role_word(actor.role);
    let authorisation = actor.authorisation.text();
    let premises = actor.premises.text();
    match (&enrolment.until, &enrolment.codes) {
        (None, None) => format!(in alloc; "{role} {authorisation} {premises}"),
        (Some(last), None) => {
            let last = last.as_str();
            format!(in alloc; "{role} {authorisation} {premises} UNTIL {last}")
        }
        (None, Some(codes)) => {
            let codes = codes.text();
            format!(in alloc; "{role} {authorisation} {premises} CODES {codes}")
        }
        (Some(last), Some(codes)) => {
            let (last, codes) = (last.as_str(), codes.text());
            format!(in alloc; "{role} {authorisation} {premises} UNTIL {last} CODES {codes}")
        }
    }
}
