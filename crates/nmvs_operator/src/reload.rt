//! The users file, taken anew.
ghost use Rattle.std.specs.Prelude.{◌≡◌, ◌++◌, ◌∷◌, [], ℕ, List, IfOk, OnOk, OnErr, MatchResult, Ok, Err, None, codes, true, false};
ghost use Rattle.nmvs_directory.specs.Registrar.{register_of, published, pending};
ghost use Rattle.nmvs_directory.specs.declared.change.Change.{Change};
ghost use Rattle.nmvs_messages.specs.Commands.{first_command_fault};
ghost use Rattle.nmvs_stream.specs.Delivery.{Delivers, DeliversPart};
ghost use Rattle.nmvs_operator.specs.declared.order.Order.TheVariants as orders;
ghost use Rattle.nmvs_operator.specs.Users.{says as line_says, AddsAll, AddsFirst};
ghost use Rattle.nmvs_operator.specs.UsersFaults.{faults_from};
ghost use Rattle.nmvs_operator.specs.Reload.{TakesLines, LineTakesEffect, takes_effect, is_suspension};
ghost use Rattle.nmvs_operator.specs.Roll.{changed_line};
ghost use Rattle.nmvs_operator.specs.Commands.{office, Renews, Said, answer_text, is_stop, Tries};

use crate::commands::{fault_text, tell};
use crate::roll::{count_changed, count_users, standings};
use crate::users::{add_all, says};
use crate::users_check::faults_text;
use crate::{Latest, ObeyFault, Service};
use itoa::Buffer;
use nmvs_directory::{Look, Naming, Notice, Registrar};
use nmvs_messages::{Command, read_command};
use nmvs_stream::{Failed, Sink, cut_line, deliver, write_all};
use std::alloc::{AllocError, Allocator, Global};
use std::sync::Wait;

/// Takes the users file anew, and answers. With `all` each of its commands takes effect, else each but the enrolment of
/// a suspended user. A failed write changes nothing.
pub(crate) fn reload<'r, J: Naming, R: Wait, A: Allocator, W: Sink, S: Service>(
    alloc: Global,
    all: bool,
    sink: &mut W,
    registrar: &mut Registrar<J, &'r R, A>,
    latest: &mut Latest<'_, J, R>,
    service: &mut S,
)
    ensures { (said : Said)
        × Renews S.keeps all (office (register_of registrar.old) latest.old service.old) said.lines said.ends
        (office (register_of registrar.new) latest.new service.new)
        × Tries (W.taken sink.old) (W.taken sink.new) (answer_text said)
        × (false ≡ is_stop said) }
{
    match service.read_users(alloc) {
        Err(fault) => tell(fault_text(ObeyFault::Undone(fault)), sink),
        Ok(bytes) => reload_from(alloc, all, &bytes, sink, registrar, latest, service),
    }
}

/// Takes the users file of these bytes, and answers.
fn reload_from<'r, J: Naming, R: Wait, A: Allocator, W: Sink, S: Service>(
    alloc: Global,
    all: bool,
    bytes: &[u8],
    sink: &mut W,
    registrar: &mut Registrar<J, &'r R, A>,
    latest: &mut Latest<'_, J, R>,
    service: &mut S,
)
    ensures { (said : Said)
        × Renews S.keeps all (office (register_of registrar.old) latest.old service.old) said.lines said.ends
        (office (register_of registrar.new) latest.new service.new)
        × Tries (W.taken sink.old) (W.taken sink.new) (answer_text said)
        × (false ≡ is_stop said) }
{
    match faults_text(alloc, bytes) {
        Err(AllocError) => tell(fault_text(ObeyFault::Memory), sink),
        Ok(faults) => {
            if !faults.is_empty() {
                tell(&faults, sink);
                return;
            }
            match take_users(alloc, all, bytes, registrar, latest, service) {
                Err(fault) => tell(fault_text(fault), sink),
                Ok(changed) => tell_changed(changed, sink),
            }
        }
    }
}

/// Answers that this number of users was changed.
fn tell_changed<W: Sink>(changed: u64, sink: &mut W)
    ensures { Tries (W.taken sink.old) (W.taken sink.new) (changed_line changed ++ codes "DONE\n") }
{
    let _failed = deliver_changed(changed, sink);
}

/// Delivers the answer that this number of users was changed.
fn deliver_changed<W: Sink>(changed: u64, sink: &mut W) -> Result<(), Failed>
    ensures ok { OnOk result (Delivers (W.taken sink.old) (W.taken sink.new) (changed_line changed ++ codes "DONE\n")) }
    ensures err { OnErr result (DeliversPart (W.taken sink.old) (W.taken sink.new) (changed_line changed ++ codes "DONE\n")) }
{
    let mut buffer = Buffer::new();
    write_all(sink, b"CHANGED ")?;
    write_all(sink, buffer.format(changed).as_bytes())?;
    deliver(sink, b"\nDONE\n")
}

/// Hands the lines of a users file that take effect to the server, which keeps them, and publishes their changes. The file has
/// no fault. The result is how many users have another state now.
///
/// # Errors
///
/// The server does not keep them, and nothing is published. Or memory is wanting: either nothing is kept, or they are kept,
/// nothing is published, and the changes of the first of them are pending.
fn take_users<'r, J: Naming, R: Wait, A: Allocator, S: Service>(
    alloc: Global,
    all: bool,
    file: &[u8],
    registrar: &mut Registrar<J, &'r R, A>,
    latest: &mut Latest<'_, J, R>,
    service: &mut S,
) -> Result<u64, ObeyFault>
    requires faultless { faults_from 1 file.now ≡ [] }
    ensures { MatchResult result
        (λ changed. Renews S.keeps all (office (register_of registrar.old) latest.old service.old) (changed_line changed) (Ok (orders.Reload all))
        (office (register_of registrar.new) latest.new service.new))
        (λ fault. Renews S.keeps all (office (register_of registrar.old) latest.old service.old) [] (Err fault)
        (office (register_of registrar.new) latest.new service.new)) }
{
    let Ok(before) = standings(alloc, registrar) else {
        return Err(ObeyFault::Memory);
    };
    let Ok(lines) = lines_in_effect(alloc, all, file, registrar) else {
        return Err(ObeyFault::Memory);
    };
    if let Err(fault) = service.keep_file(&lines) {
        return Err(ObeyFault::Undone(fault));
    }
    match publish_all(&lines, registrar) {
        Ok(notice) => {
            latest.show(notice);
            service.note_users(count_users(registrar));
            Ok(count_changed(&before, registrar))
        }
        Err(AllocError) => Err(ObeyFault::Memory),
    }
}

/// The lines of a users file that take effect. The file has no fault.
///
/// # Errors
///
/// There is no memory for them.
fn lines_in_effect<J: Naming, R: Wait + Drop, A: Allocator>(
    alloc: Global,
    all: bool,
    file: &[u8],
    registrar: &Registrar<J, R, A>,
) -> Result<Vec<u8>, AllocError>
    requires faultless { faults_from 1 file.now ≡ [] }
    ensures { IfOk result (λ lines. TakesLines all (published registrar.now) file.now lines.items) }
{
    let mut lines = Vec::new(alloc);
    let mut rest = file;
    while let Some((line, behind)) = cut_line(rest) {
        if line_takes_effect(all, line, registrar) {
            push_line(&mut lines, line)?;
        }
        rest = behind;
    }
    Ok(lines)
}

/// Adds a line, and its LF.
fn push_line(lines: &mut Vec<u8>, line: &[u8]) -> Result<(), AllocError>
    ensures { OnOk result (lines.new.items ≡ lines.old.items ++ (line.now ++ 10 ∷ [])) }
{
    lines.extend_from_slice(line)?;
    lines.push(b'\n')?;
    Ok(())
}

/// Whether a line of a users file takes effect. It has no fault.
fn line_takes_effect<J: Naming, R: Wait + Drop, A: Allocator>(
    all: bool,
    line: &[u8],
    registrar: &Registrar<J, R, A>,
) -> bool
    requires faultless { line_says line.now ≡ true → first_command_fault line.now ≡ None }
    ensures { LineTakesEffect all (published registrar.now) line.now result }
{
    if !says(line) {
        return true;
    }
    match read_command(line) {
        Ok(command) => command_takes_effect(all, &command, registrar),
        Err(_) => true,
    }
}

/// Whether a command of a users file takes effect: with `all` each does, else each but the enrolment of a user who is
/// suspended.
fn command_takes_effect<J: Naming, R: Wait + Drop, A: Allocator>(
    all: bool,
    command: &Command,
    registrar: &Registrar<J, R, A>,
) -> bool
    ensures { result ≡ takes_effect all (published registrar.now) command.now }
{
    match command {
        Command::Enrol(user, _) => all || !is_suspended(registrar.look(user)),
        Command::Suspend(_) | Command::Remove(_) => true,
    }
}

/// Whether this is the answer about a user who is suspended.
fn is_suspended(look: Look) -> bool
    ensures { result ≡ is_suspension look }
{
    match look {
        Look::Suspended => true,
        Look::Nobody | Look::Known(_) | Look::Closed => false,
    }
}

/// Publishes the changes of lines of a users file, all at once.
fn publish_all<J: Naming, R: Wait + Drop, A: Allocator>(
    bytes: &[u8],
    registrar: &mut Registrar<J, R, A>,
) -> Result<Notice<J>, AllocError>
    ensures { MatchResult result
        (λ notice. (added : List Change) × AddsAll bytes.now (pending registrar.old) added
        × (published registrar.new ≡ published registrar.old ++ added)
        × (pending registrar.new ≡ []) × (notice ≡ published registrar.new))
        (λ _. (published registrar.new ≡ published registrar.old)
        × AddsFirst bytes.now (pending registrar.old) (pending registrar.new)) }
{
    match add_all(bytes, &mut registrar.changes) {
        Ok(()) => registrar.publish(),
        Err(_) => Err(AllocError),
    }
}
