//! The answers to readers.
ghost use Rattle.std.specs.Prelude.{◌≡◌, ◌++◌, OnOk, find, map};
ghost use Rattle.std.specs.List.{flat_map};
ghost use Rattle.nmvs_alerts.specs.Answers as answers;
ghost use Rattle.nmvs_alerts.specs.Json.{joined};
ghost use Rattle.nmvs_alerts.specs.Story.{line_for, seen};

use crate::alert::alert_of;
use crate::entries::append_entries;
use crate::flagged::Flagged;
use crate::houses::append_silent;
use crate::inspected::may_inspect;
use crate::json::{append, append_decimal, append_joined, append_name, append_number, append_text};
use crate::numbers::append_numbers;
use crate::one::append_alert;
use crate::pages::append_alerts;
use crate::rows_answer::{append_alert_rows, append_rows};
use crate::selection::ranged;
use crate::story::append_story;
use crate::viewing::{may_see, sees_houses};
use crate::{AlertFilter, FlaggedAlert, Inspected, Investigation};
use nmvs_cases::{Author, Hinted, Reader};
use nmvs_identifier::{Name, Pack, ProductCode};
use nmvs_inspect::Filter;
use nmvs_reports::AlertName;
use nmvs_rules::{Actor, Role};
use nmvs_shard::Shard;
use std::alloc::{AllocError, Allocator, Global};

/// What a reader asks for.
#[derive(Clone, Copy)]
pub enum Request<'t> {
    /// Who reads, and how far the trail was judged, with the text of why it does not go on, if it does not.
    Reader(&'t str),
    Alerts(AlertFilter),
    /// All of them, as CSV.
    AlertRows(AlertFilter),
    Alert(AlertName),
    /// The listed alerts on a product code with these hints.
    Range(ProductCode, Hinted),
    Numbers,
    /// Entries from a place on.
    Entries(Filter, usize),
    /// Rows of what is inspected, as CSV.
    Rows(Inspected<'t>),
    /// Of these users those without an entry since this day, from a place in the list on.
    Houses(&'t [(Name, Actor)], i32, usize),
}

/// Whether a request is answered.
#[derive(Clone, Copy)]
pub enum Status {
    Found,
    /// There is no such alert, or the reader does not see it.
    NoAlert,
    /// It is nothing for a reader of this kind (Article 38).
    NotYours,
    /// The rows have more bytes than an answer may have.
    TooLong,
}

/// Puts the answer to a reader's request, as JSON unless it says otherwise, at the end of a block. If it is not found, the block stays as it is.
///
/// # Errors
///
/// There is no memory.
pub fn answer(
    alloc: Global,
    investigation: &Investigation,
    author: &Author,
    request: &Request<'_>,
    block: &mut Vec<u8>,
) -> Result<Status, AllocError> {
    let (shard, flagged) = (investigation.shard(), investigation.flagged());
    match request {
        Request::Reader(fault) => append_reader(block, investigation, author, fault)?,
        Request::Alerts(filter) | Request::AlertRows(filter) if !may_ask(author, &filter.entries) =>
            {
                return Ok(Status::NotYours);
            }
        Request::Alerts(filter) => append_alerts(alloc, block, shard, flagged, author, filter)?,
        Request::AlertRows(filter) => {
            return append_alert_rows(alloc, block, shard, flagged, author, filter);
        }
        Request::Alert(name) => match alert_named(shard, flagged, author, name) {
            Some(alert) => append_standing(alloc, block, investigation, author, &alert)?,
            None => return Ok(Status::NoAlert),
        },
        Request::Range(code, hinted) => {
            let found = ranged(alloc, shard, flagged, author, code, *hinted)?;
            append_range(block, shard, &found)?
        }
        Request::Numbers => append_numbers(alloc, block, shard, flagged, author)?,
        Request::Entries(filter, from) => match entries_of(author, filter) {
            Some(own) => append_entries(block, shard, &own, *from)?,
            None => return Ok(Status::NotYours),
        },
        Request::Rows(Inspected::Entries(filter)) => match entries_of(author, filter) {
            Some(own) => return append_rows(alloc, block, shard, &Inspected::Entries(own)),
            None => return Ok(Status::NotYours),
        },
        Request::Rows(_) if !may_inspect(author) => return Ok(Status::NotYours),
        Request::Rows(inspected) => return append_rows(alloc, block, shard, inspected),
        Request::Houses(users, since, from) => match author.reader() {
            Reader::Owner => return Ok(Status::NotYours),
            Reader::Officer | Reader::Authority => {
                append_silent(alloc, block, shard, users, *since, *from)?
            }
        },
    }
    Ok(Status::Found)
}

/// Whether somebody may ask for alerts by who raised them: who does not see that may not (Article 38).
fn may_ask(author: &Author, filter: &Filter) -> bool
    ensures { result ≡ answers.may_ask author.now filter.now }
{
    sees_houses(author)
        || (filter.user.is_none()
            && filter.role.is_none()
            && filter.authorisation.is_none()
            && filter.premises.is_none())
}

/// The filter of the entries that a reader asks for and sees: an authority all, a house its own, and others none (Articles 38 and 39).
fn entries_of(author: &Author, filter: &Filter) -> Option<Filter>
    ensures { result ≡ answers.entries_of author.now filter.now }
{
    let Author::User(_, actor) = author else {
        return None;
    };
    match actor.role {
        Role::Authority => Some(*filter),
        Role::Holder => None,
        Role::Manufacturer | Role::Wholesaler | Role::Pharmacy => own_entries(actor, filter),
    }
}

/// The same filter for the entries of a house alone; none if it is for another's.
fn own_entries(actor: &Actor, filter: &Filter) -> Option<Filter>
    ensures { result ≡ answers.own_entries actor.now filter.now }
{
    if is_other(&filter.authorisation, &actor.authorisation)
        || is_other(&filter.premises, &actor.premises)
    {
        return None;
    }
    Some(Filter {
        authorisation: Some(actor.authorisation),
        premises: Some(actor.premises),
        ..*filter
    })
}

fn is_other(wanted: &Option<Name>, own: &Name) -> bool
    ensures { result ≡ answers.is_other wanted.now own.now }
{
    match wanted {
        None => false,
        Some(wanted) => *wanted != *own,
    }
}

#[tactic(auto, unfolding(crate::specs::Answers::reader_text))]
fn append_reader(
    block: &mut Vec<u8>,
    investigation: &Investigation,
    author: &Author,
    fault: &str,
) -> Result<(), AllocError>
    ensures { OnOk result (block.new.items ≡ block.old.items ++ answers.reader_text investigation.now.trail author.now fault.now) }
{
    append_user(block, author)?;
    append_number(block, "entries", investigation.len() as u64)?;
    append_number(block, "moment", last_moment(investigation))?;
    append_text(block, "fault", fault)?;
    append(block, "}")
}

#[tactic(auto, unfolding(crate::specs::Answers::user_text))]
fn append_user(block: &mut Vec<u8>, author: &Author) -> Result<(), AllocError>
    ensures { OnOk result (block.new.items ≡ block.old.items ++ answers.user_text author.now) }
{
    append(block, "{\"user\":\"")?;
    append(block, author.user().text())?;
    append(block, "\"")?;
    append_text(block, "reads", reads_as(author))
}

/// The word of how somebody reads.
fn reads_as(author: &Author) -> &'static str
    ensures { result.now ≡ answers.reads_as author.now }
{
    match author {
        Author::Officer(_) => "OFFICER",
        Author::User(_, actor) => match actor.role {
            Role::Authority => "AUTHORITY",
            Role::Holder => "HOLDER",
            Role::Manufacturer | Role::Wholesaler | Role::Pharmacy => "HOUSE",
        },
    }
}

/// The moment of the last entry, or 0 if there is none.
fn last_moment(investigation: &Investigation) -> u64
    ensures { result ≡ answers.last_moment investigation.now.trail }
{
    let last = investigation.len().saturating_sub(1);
    match investigation.shard().entry_at(last) {
        Some(entry) => entry.put.moment.seconds() as u64,
        None => 0,
    }
}

/// The flagged alert of a name, if the reader sees it.
fn alert_named<A: Allocator>(
    shard: &Shard<A>,
    flagged: &[Flagged],
    author: &Author,
    name: &AlertName,
) -> Option<Flagged>
    ensures { result ≡ find (answers.is_it shard.now author.now name.now) flagged.now }
{
    flagged
        .iter()
        .copied()
        .find(|alert| is_it(shard, author, name, alert))
}

/// Whether a flagged alert has the name, and the reader sees it.
fn is_it<A: Allocator>(
    shard: &Shard<A>,
    author: &Author,
    name: &AlertName,
    flagged: &Flagged,
) -> bool
    ensures { result ≡ answers.is_it shard.now author.now name.now flagged.now }
{
    match shard.entry_at(flagged.place) {
        Some(entry) => name.names(&entry) && may_see(shard.tables(), author, &entry.put),
        None => false,
    }
}

/// Puts a flagged alert at the end of a block, with its acts and the story of its pack, as the reader sees them.
fn append_standing(
    alloc: Global,
    block: &mut Vec<u8>,
    investigation: &Investigation,
    author: &Author,
    flagged: &Flagged,
) -> Result<(), AllocError>
    ensures { OnOk result (block.new.items ≡ block.old.items ++ answers.stands_text investigation.now author.now flagged.now) }
{
    match alert_of(investigation.shard(), flagged) {
        None => Ok(()),
        Some(alert) => append_one(alloc, block, investigation, author, flagged, &alert),
    }
}

#[tactic(auto, unfolding(crate::specs::Answers::one_text))]
fn append_one(
    alloc: Global,
    block: &mut Vec<u8>,
    investigation: &Investigation,
    author: &Author,
    flagged: &Flagged,
    alert: &FlaggedAlert,
) -> Result<(), AllocError>
    ensures { OnOk result (block.new.items ≡ block.old.items ++ answers.one_text investigation.now author.now flagged.now alert.now) }
{
    append_alert(alloc, block, investigation.shard(), author, alert)?;
    let texts = investigation.texts_on(alloc, flagged.place, author)?;
    append_acts(block, &texts)?;
    append_story_member(
        alloc,
        block,
        investigation.shard(),
        author,
        &alert.entry.put.question.pack(),
    )?;
    append(block, "}")
}

/// Puts the texts of acts at the end of a block.
#[tactic(auto, unfolding(crate::specs::Answers::acts_text))]
fn append_acts(block: &mut Vec<u8>, texts: &[&str]) -> Result<(), AllocError>
    ensures { OnOk result (block.new.items ≡ block.old.items ++ answers.acts_text (map (λ text. text.now) texts.now)) }
{
    append_name(block, "acts")?;
    append(block, "[")?;
    append_joined(block, texts)?;
    append(block, "]")
}

/// Puts the story of a pack at the end of a block, as the reader sees it.
#[tactic(auto, unfolding(crate::specs::Answers::story_text))]
fn append_story_member(
    alloc: Global,
    block: &mut Vec<u8>,
    shard: &Shard<Global>,
    author: &Author,
    pack: &Option<Pack>,
) -> Result<(), AllocError>
    ensures { OnOk result (block.new.items ≡ block.old.items ++ answers.story_text shard.now author.now pack.now) }
{
    append_name(block, "story")?;
    append(block, "[")?;
    append_entries_about(alloc, block, shard, author, pack)?;
    append(block, "]")
}

fn append_entries_about(
    alloc: Global,
    block: &mut Vec<u8>,
    shard: &Shard<Global>,
    author: &Author,
    pack: &Option<Pack>,
) -> Result<(), AllocError>
    ensures { OnOk result (block.new.items ≡ block.old.items ++ joined (line_for author.now) (flat_map (seen author.now) (answers.story_of shard.now pack.now))) }
{
    match pack {
        None => Ok(()),
        Some(pack) => {
            let entries = shard.entries_of(pack)?;
            append_story(alloc, block, author, &entries)
        }
    }
}

/// Puts the smallest range at the end of a block that has these alerts, which are of one product code and oldest first, and their number.
#[tactic(auto, unfolding(crate::specs::Answers::range_text))]
fn append_range<A: Allocator>(
    block: &mut Vec<u8>,
    shard: &Shard<A>,
    found: &[Flagged],
) -> Result<(), AllocError>
    ensures { OnOk result (block.new.items ≡ block.old.items ++ answers.range_text shard.now found.now) }
{
    append(block, "{\"first\":")?;
    append_decimal(block, number_of(shard, &found.first().copied()))?;
    append_number(block, "last", number_of(shard, &found.last().copied()))?;
    append_number(block, "alerts", found.len() as u64)?;
    append(block, "}")
}

/// The number of a flagged alert, or 0 if there is none.
fn number_of<A: Allocator>(shard: &Shard<A>, flagged: &Option<Flagged>) -> u64
    ensures { result ≡ answers.number_of shard.now flagged.now }
{
    match flagged {
        None => 0,
        Some(flagged) => match alert_of(shard, flagged) {
            None => 0,
            Some(alert) => alert.name.number,
        },
    }
}
