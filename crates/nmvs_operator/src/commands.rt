//! The operator's orders, carried out.
ghost use Rattle.std.specs.Prelude.{◌≡◌, ◌⊎◌, ◌<◌, ◌++◌, ◌∷◌, [], length, OnOk, OnErr, IfErr, MatchResult, Some, Ok, Err, codes, string_bytes};
ghost use Rattle.nmvs_directory.specs.Changes.{pending_changes, KeepsEntered, IsFull};
ghost use Rattle.nmvs_directory.specs.Registrar.{register_of, published, pending};
ghost use Rattle.nmvs_operator.specs.Users.{change_of};
ghost use Rattle.nmvs_stream.specs.Delivery.{Delivers, DeliversPart};
ghost use Rattle.nmvs_operator.specs.Commands.{office, ways, Said, Changes as Changed, Performs, AnswersOrder, AnswersFollowing, answer_text, order_text as text_of_answer, last_answer, TellsAnswers, is_stop, stops, Tries, CarriesOut};

use crate::figures::figures_text;
use crate::lines::next_line;
use crate::order::help_text;
use crate::reload::reload;
use crate::roll::{count_users, users_text};
use crate::{Fixed, Latest, ObeyFault, Order, Perform, Service, ServiceFault, read_order};
use nmvs_directory::{Changes, Look, Naming, Notice, Registrar};
use nmvs_identifier::Name;
use nmvs_messages::{Command, CommandFault, PendingLine};
use nmvs_stream::{Console, Failed, Sides, Sink, deliver, write_all};
use std::alloc::{AllocError, Allocator, Global};
use std::sync::Wait;

/// The most orders that are carried out: more than any input has.
const MOST_ORDERS: u64 = u64::MAX;

/// Carries out the orders of a console one by one, as they come, and answers each. A change of the users is kept by the
/// server first, then published at once, and its notice shown as the latest.
///
/// It ends with the input, at a failed read, or once it has stopped the server, and then it looks at no further line. A line
/// without LF at the end of the input is answered and not carried out. A failed write changes nothing. It waits for the
/// lock of the latest notice, and releases it.
pub fn obey_all<'r, J: Naming, R: Wait, A: Allocator, T: Sides, S: Service>(
    alloc: Global,
    console: &mut Console<T>,
    registrar: &mut Registrar<J, &'r R, A>,
    latest: &mut Latest<'_, J, R>,
    service: &mut S,
)
    ensures { CarriesOut (ways S.does S.keeps) (office (register_of registrar.old) latest.old service.old)
        (T.Source.told console.old.source) (T.Sink.taken console.old.sink)
        (office (register_of registrar.new) latest.new service.new)
        (T.Source.told console.new.source) (T.Sink.taken console.new.sink) }
{
    for _ in 0..MOST_ORDERS {
        match next_line(&mut console.source) {
            Ok(line) => {
                let line = line.as_slice();
                if obey_line(alloc, line, &mut console.sink, registrar, latest, service) {
                    return;
                }
            }
            Err(begun) => {
                tell_unended(&begun, &mut console.sink);
                return;
            }
        }
    }
}

/// Answers a line that has no end, unless it has no byte.
fn tell_unended<W: Sink>(begun: &PendingLine, sink: &mut W)
    ensures { TellsAnswers (W.taken sink.old) (last_answer begun.now) (W.taken sink.new) }
{
    if !begun.is_empty() {
        tell(fault_text(ObeyFault::Unended), sink);
    }
}

/// Carries out one order, of which the kept part is given, and answers it. The result is whether it stopped the server.
/// A failed write changes nothing.
fn obey_line<'r, J: Naming, R: Wait, A: Allocator, W: Sink, S: Service>(
    alloc: Global,
    line: &[u8],
    sink: &mut W,
    registrar: &mut Registrar<J, &'r R, A>,
    latest: &mut Latest<'_, J, R>,
    service: &mut S,
) -> bool
    ensures { (said : Said)
        × AnswersOrder (ways S.does S.keeps) (office (register_of registrar.old) latest.old service.old) line.now said
        (office (register_of registrar.new) latest.new service.new)
        × Tries (W.taken sink.old) (W.taken sink.new) (answer_text said)
        × (result ≡ is_stop said) }
{
    match read_order(line) {
        Err(fault) => {
            tell(fault_text(ObeyFault::Unread(fault)), sink);
            false
        }
        Ok(order) => match order {
            Order::Change(command) => {
                tell_end(change(alloc, &command, registrar, latest, service), sink);
                false
            }
            Order::Reload { all } => {
                reload(alloc, all, sink, registrar, latest, service);
                false
            }
            Order::Fixed(Fixed::Users) => {
                tell_made(users_text(alloc, registrar), sink);
                false
            }
            Order::Fixed(Fixed::Help) => {
                tell_made(help_text(alloc), sink);
                false
            }
            _ => serve(alloc, &order, sink, service),
        },
    }
}

/// Answers the orders of a console to a server that follows another, one by one as they come. It ends with the input, at a failed
/// read, or once it has stopped the server.
pub fn obey_following<T: Sides, S: Perform>(
    alloc: Global,
    console: &mut Console<T>,
    server: &mut S,
) {
    for _ in 0..MOST_ORDERS {
        match next_line(&mut console.source) {
            Ok(line) => {
                if obey_one(alloc, line.as_slice(), &mut console.sink, server) {
                    return;
                }
            }
            Err(_) => return,
        }
    }
}

/// Carries out one order to a server that follows, and answers it. The result is whether it stopped the server.
fn obey_one<W: Sink, S: Perform>(alloc: Global, line: &[u8], sink: &mut W, server: &mut S) -> bool
    ensures { (said : Said)
        × AnswersFollowing S.does server.old line.now said server.new
        × Tries (W.taken sink.old) (W.taken sink.new) (answer_text said)
        × (result ≡ is_stop said) }
{
    match read_order(line) {
        Err(fault) => {
            tell(fault_text(ObeyFault::Unread(fault)), sink);
            false
        }
        Ok(order) => match order {
            Order::Fixed(Fixed::Help) => {
                tell_made(help_text(alloc), sink);
                false
            }
            _ => serve(alloc, &order, sink, server),
        },
    }
}

/// Has the server carry out an order, and answers it. The result is whether it stopped the server.
fn serve<W: Sink, S: Perform>(
    alloc: Global,
    order: &Order<'_>,
    sink: &mut W,
    server: &mut S,
) -> bool
    ensures { (said : Said)
        × Performs S.does server.old order.now said.lines said.ends server.new
        × Tries (W.taken sink.old) (W.taken sink.new) (answer_text said)
        × (result ≡ is_stop said) }
{
    match server.perform(alloc, order) {
        Err(fault) => {
            tell(fault_text(ObeyFault::Undone(fault)), sink);
            false
        }
        Ok(figures) => match figures_text(alloc, &figures) {
            Err(AllocError) => {
                tell(fault_text(ObeyFault::Memory), sink);
                false
            }
            Ok(lines) => {
                tell_lines(&lines, sink);
                ends(order)
            }
        },
    }
}

/// Whether an order ends the server.
fn ends(order: &Order<'_>) -> bool
    ensures { result ≡ stops (Ok order.now) }
{
    matches!(order, Order::Fixed(Fixed::Stop))
}

/// Has the server keep a change of the users, and publishes it.
///
/// # Errors
///
/// The server does not keep it, or there is no memory to publish a change that the server keeps. Nothing is published.
/// In the second case the pending changes had no room for it, or it is pending and the next publication carries it.
fn change<'r, J: Naming, R: Wait, A: Allocator, S: Service>(
    alloc: Global,
    command: &Command,
    registrar: &mut Registrar<J, &'r R, A>,
    latest: &mut Latest<'_, J, R>,
    service: &mut S,
) -> Result<(), ObeyFault>
    ensures answers { MatchResult result
        (λ _. Changed S.does (office (register_of registrar.old) latest.old service.old) command.now (Ok (Order.Change command.now))
        (office (register_of registrar.new) latest.new service.new))
        (λ fault. Changed S.does (office (register_of registrar.old) latest.old service.old) command.now (Err fault)
        (office (register_of registrar.new) latest.new service.new)) }
    ensures memory { IfErr result (λ fault. fault ≡ ObeyFault.Memory
        → IsFull registrar.old.changes ⊎ (0 < length (pending registrar.new))) }
{
    if let Err(fault) = service.perform(alloc, &Order::Change(*command)) {
        return Err(ObeyFault::Undone(fault));
    }
    let user = user_of(command);
    let before = look_before(registrar, &user);
    match publish(*command, registrar) {
        Ok(notice) => {
            latest.show(notice);
            note_change(before, &user, registrar, service);
            Ok(())
        }
        Err(AllocError) => Err(ObeyFault::Memory),
    }
}

/// Publishes a change of the users at once.
fn publish<J: Naming, R: Wait + Drop, A: Allocator>(
    command: Command,
    registrar: &mut Registrar<J, R, A>,
) -> Result<Notice<J>, AllocError>
    ensures published { MatchResult result
        (λ notice. (published registrar.new ≡ published registrar.old ++ (pending registrar.old ++ change_of command ∷ []))
        × (pending registrar.new ≡ []) × (notice ≡ published registrar.new))
        (λ _. (published registrar.new ≡ published registrar.old)
        × ((pending registrar.new ≡ pending registrar.old) ⊎ (pending registrar.new ≡ pending registrar.old ++ change_of command ∷ []))) }
    ensures memory { OnErr result (IsFull registrar.old.changes ⊎ (0 < length (pending registrar.new))) }
{
    add(&mut registrar.changes, command)?;
    registrar.publish()
}

/// The user that a command names.
fn user_of(command: &Command) -> Name {
    match command {
        Command::Enrol(user, _) | Command::Suspend(user) | Command::Remove(user) => *user,
    }
}

/// The answer about a user before its change is published, unless other changes are pending.
fn look_before<J: Naming, R: Wait + Drop, A: Allocator>(
    registrar: &Registrar<J, R, A>,
    user: &Name,
) -> Option<Look> {
    if registrar.changes.has_pending() {
        None
    } else {
        Some(registrar.look(user))
    }
}

/// Has the server count the published change of a user, or all users if the answer about it before is unknown.
fn note_change<J: Naming, R: Wait + Drop, A: Allocator, S: Service>(
    before: Option<Look>,
    user: &Name,
    registrar: &Registrar<J, R, A>,
    service: &S,
) {
    match before {
        Some(before) => service.note_user(before, registrar.look(user)),
        None => service.note_users(count_users(registrar)),
    }
}

/// Adds the change of a command to those that are pending.
pub(crate) fn add<A: Allocator>(
    changes: &mut Changes<A>,
    command: Command,
) -> Result<(), AllocError>
    ensures entered { KeepsEntered changes.old changes.new }
    ensures ok { OnOk result
        (pending_changes changes.new ≡ pending_changes changes.old ++ change_of command ∷ []) }
    ensures err { OnErr result (pending_changes changes.new ≡ pending_changes changes.old) }
    ensures full { OnErr result (IsFull changes.old) }
{
    match command {
        Command::Enrol(user, enrolment) => changes.enrol(user, enrolment),
        Command::Suspend(user) => changes.suspend(user),
        Command::Remove(user) => changes.remove(user),
    }
}

/// Answers an order by how it ended.
fn tell_end<W: Sink>(end: Result<(), ObeyFault>, sink: &mut W)
    ensures { MatchResult end (λ _. Tries (W.taken sink.old) (W.taken sink.new) (codes "DONE\n"))
        (λ fault. Tries (W.taken sink.old) (W.taken sink.new) (text_of_answer (Err fault))) }
{
    match end {
        Ok(()) => tell("DONE\n", sink),
        Err(fault) => tell(fault_text(fault), sink),
    }
}

/// Answers an order by these lines, or by `FAULT MEMORY` if there was no memory for them.
fn tell_made<W: Sink>(lines: Result<String, AllocError>, sink: &mut W)
    ensures { MatchResult lines (λ lines. Tries (W.taken sink.old) (W.taken sink.new) (string_bytes lines ++ codes "DONE\n"))
        (λ _. Tries (W.taken sink.old) (W.taken sink.new) (codes "FAULT MEMORY\n")) }
{
    match lines {
        Ok(lines) => tell_lines(&lines, sink),
        Err(AllocError) => tell(fault_text(ObeyFault::Memory), sink),
    }
}

/// Answers an order that was carried out by these lines.
fn tell_lines<W: Sink>(lines: &str, sink: &mut W)
    ensures { Tries (W.taken sink.old) (W.taken sink.new) (lines.now ++ codes "DONE\n") }
{
    let _failed = deliver_lines(lines, sink);
}

/// Delivers these lines and the last line of the answer.
fn deliver_lines<W: Sink>(lines: &str, sink: &mut W) -> Result<(), Failed>
    ensures ok { OnOk result (Delivers (W.taken sink.old) (W.taken sink.new) (lines.now ++ codes "DONE\n")) }
    ensures err { OnErr result (DeliversPart (W.taken sink.old) (W.taken sink.new) (lines.now ++ codes "DONE\n")) }
{
    write_all(sink, lines.as_bytes())?;
    deliver(sink, b"DONE\n")
}

/// Answers an order.
pub(crate) fn tell<W: Sink>(text: &str, sink: &mut W)
    ensures { Tries (W.taken sink.old) (W.taken sink.new) text.now }
{
    let _failed = deliver(sink, text.as_bytes());
}

/// The answer to an order that was not carried out.
pub(crate) fn fault_text(fault: ObeyFault) -> &'static str
    ensures { result.now ≡ text_of_answer (Err fault) }
{
    match fault {
        ObeyFault::Unread(CommandFault::Long) => "FAULT LONG\n",
        ObeyFault::Unread(CommandFault::Bytes) => "FAULT BYTES\n",
        ObeyFault::Unread(CommandFault::Fields) => "FAULT FIELDS\n",
        ObeyFault::Unread(CommandFault::Word) => "FAULT WORD\n",
        ObeyFault::Unread(CommandFault::Role) => "FAULT ROLE\n",
        ObeyFault::Unread(CommandFault::User) => "FAULT NAME\n",
        ObeyFault::Unread(CommandFault::Authorisation) => "FAULT NAME\n",
        ObeyFault::Unread(CommandFault::Premises) => "FAULT NAME\n",
        ObeyFault::Unread(CommandFault::Until) => "FAULT UNTIL\n",
        ObeyFault::Unread(CommandFault::Codes) => "FAULT CODES\n",
        ObeyFault::Undone(ServiceFault::Journal) => "FAULT JOURNAL\n",
        ObeyFault::Undone(ServiceFault::Write) => "FAULT WRITE\n",
        ObeyFault::Undone(ServiceFault::Memory) => "FAULT MEMORY\n",
        ObeyFault::Undone(ServiceFault::Clock) => "FAULT CLOCK\n",
        ObeyFault::Undone(ServiceFault::Read) => "FAULT READ\n",
        ObeyFault::Undone(ServiceFault::NoFile) => "FAULT NOFILE\n",
        ObeyFault::Undone(ServiceFault::Engine) => "FAULT ENGINE\n",
        ObeyFault::Undone(ServiceFault::Standby) => "FAULT STANDBY\n",
        ObeyFault::Undone(ServiceFault::Untrimmed) => "FAULT TRIM\n",
        ObeyFault::Memory => "FAULT MEMORY\n",
        ObeyFault::Users => "FAULT USERS\n",
        ObeyFault::Unended => "FAULT UNENDED\n",
    }
}
