//! The story of a pack, as JSON.
ghost use Rattle.std.specs.Prelude.{◌≡◌, ◌++◌, ◌∷◌, [], OnOk, IfOk, decimal, map, string_bytes};
ghost use Rattle.std.specs.List.{flat_map};
ghost use Rattle.nmvs_alerts.specs.Json.{joined, led};
ghost use Rattle.nmvs_alerts.specs.Story as story;

use crate::json::append;
use crate::viewing::is_own;
use nmvs_cases::Author;
use nmvs_identifier::Name;
use nmvs_line::entry_line;
use nmvs_rules::{Actor, Entry, Put, Role};
use nmvs_words::role_word;
use std::alloc::{AllocError, Global};

/// Puts the entries about a pack that a reader sees at the end of a block, oldest first, with commas between them: an officer and an
/// authority all, a holder all without who asked, any other house its own (Articles 38 and 39).
pub(crate) fn append_story(
    alloc: Global,
    block: &mut Vec<u8>,
    author: &Author,
    entries: &[Entry],
) -> Result<(), AllocError>
    ensures { OnOk result (block.new.items ≡ block.old.items ++ joined (story.line_for author.now) (flat_map (story.seen author.now) entries.now)) }
{
    let seen = seen_of(alloc, author, entries)?;
    append_lines(alloc, block, author, &seen)
}

/// The entries that a reader sees.
fn seen_of<'e>(
    alloc: Global,
    author: &Author,
    entries: &'e [Entry],
) -> Result<Vec<&'e Entry>, AllocError>
    ensures { IfOk result (λ seen. map (λ e. e.now) seen.items ≡ flat_map (story.seen author.now) entries.now) }
{
    let mut seen = Vec::new(alloc);
    for entry in entries {
        append_if_seen(author, entry, &mut seen)?;
    }
    Ok(seen)
}

fn append_if_seen<'e>(
    author: &Author,
    entry: &'e Entry,
    seen: &mut Vec<&'e Entry>,
) -> Result<(), AllocError>
    ensures { OnOk result (map (λ e. e.now) seen.new.items ≡ map (λ e. e.now) seen.old.items ++ story.seen author.now entry.now) }
{
    if is_seen(author, entry) {
        seen.push(entry)?;
    }
    Ok(())
}

/// Puts the lines of entries at the end of a block, with commas between them.
fn append_lines(
    alloc: Global,
    block: &mut Vec<u8>,
    author: &Author,
    seen: &[&Entry],
) -> Result<(), AllocError>
    ensures { OnOk result (block.new.items ≡ block.old.items ++ joined (story.line_for author.now) (map (λ e. e.now) seen.now)) }
{
    let [first, others @ ..] = seen else {
        return Ok(());
    };
    append_line(alloc, block, author, first)?;
    append_other_lines(alloc, block, author, others)
}

fn append_other_lines(
    alloc: Global,
    block: &mut Vec<u8>,
    author: &Author,
    others: &[&Entry],
) -> Result<(), AllocError>
    ensures { OnOk result (block.new.items ≡ block.old.items ++ flat_map (λ e. led (story.line_for author.now) e.now) others.now) }
{
    for other in others {
        append_led_line(alloc, block, author, other)?;
    }
    Ok(())
}

fn append_led_line(
    alloc: Global,
    block: &mut Vec<u8>,
    author: &Author,
    entry: &Entry,
) -> Result<(), AllocError>
    ensures { OnOk result (block.new.items ≡ block.old.items ++ led (story.line_for author.now) entry.now) }
{
    append(block, ",")?;
    append_line(alloc, block, author, entry)
}

fn is_seen(author: &Author, entry: &Entry) -> bool
    ensures { result ≡ story.is_seen author.now entry.now }
{
    match author {
        Author::Officer(_) => true,
        Author::User(_, actor) => match actor.role {
            Role::Authority | Role::Holder => true,
            Role::Manufacturer | Role::Wholesaler | Role::Pharmacy => is_own(actor, &entry.put),
        },
    }
}

/// Puts the line of an entry at the end of a block, as a reader sees it.
fn append_line(
    alloc: Global,
    block: &mut Vec<u8>,
    author: &Author,
    entry: &Entry,
) -> Result<(), AllocError>
    ensures { OnOk result (block.new.items ≡ block.old.items ++ story.line_for author.now entry.now) }
{
    match author {
        Author::Officer(_) => append(block, entry_line(entry).as_str()),
        Author::User(user, actor) => match actor.role {
            Role::Holder => append_without_house(alloc, block, user, actor, entry),
            _ => append(block, entry_line(entry).as_str()),
        },
    }
}

/// Puts the line of an entry at the end of a block, where the holder of its product code reads: `null` stands for user, role,
/// authorisation and premises. The rest is that of the line which the entry would have if the reader had asked.
#[tactic(auto, unfolding(crate::specs::Story::without_house))]
fn append_without_house(
    alloc: Global,
    block: &mut Vec<u8>,
    user: &Name,
    actor: &Actor,
    entry: &Entry,
) -> Result<(), AllocError>
    ensures { OnOk result (block.new.items ≡ block.old.items ++ story.without_house user.now actor.now entry.now) }
{
    let line = entry_line(&asked_by(user, actor, entry));
    let front = front_of(alloc, user, actor, entry)?;
    let shown = shown_front(alloc, entry)?;
    append(block, &shown)?;
    let bytes = line.as_str().as_bytes();
    let behind = front.as_bytes().len().min(bytes.len());
    block.extend_from_slice(&bytes[behind..])
}

/// What is shown of the front of an entry's line.
#[tactic(auto, unfolding(crate::specs::Story::shown_front))]
fn shown_front(alloc: Global, entry: &Entry) -> Result<String, AllocError>
    ensures { IfOk result (λ text. string_bytes text ≡ story.shown_front entry.now) }
{
    let moment = entry.put.moment.seconds();
    format!(in alloc; "[2,{moment},null,null,null,null,")
}

/// The entry with this reader in the place of who asked.
fn asked_by(user: &Name, actor: &Actor, entry: &Entry) -> Entry
    ensures { result ≡ story.asked_by user.now actor.now entry.now }
{
    Entry {
        put: Put {
            user: *user,
            actor: *actor,
            tag: None,
            ..entry.put
        },
        reply: entry.reply,
    }
}

/// The beginning of its line, up to the question.
#[tactic(auto, unfolding(crate::specs::Story::front_of))]
fn front_of(alloc: Global, user: &Name, actor: &Actor, entry: &Entry) -> Result<String, AllocError>
    ensures { IfOk result (λ text. string_bytes text ≡ story.front_of user.now actor.now entry.now) }
{
    let (moment, user) = (entry.put.moment.seconds(), user.text());
    let (role, authorisation, premises) = (
        role_word(actor.role),
        actor.authorisation.text(),
        actor.premises.text(),
    );
    format!(in alloc; "[2,{moment},\"{user}\",\"{role}\",\"{authorisation}\",\"{premises}\",")
}
