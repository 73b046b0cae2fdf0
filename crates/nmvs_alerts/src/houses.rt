//! Houses that are silent, as JSON (Article 36(j)).
use crate::json::{append, append_number, append_text};
use crate::pages::MOST_ROWS;
use indexmap::IndexMap;
use itoa::Buffer;
use nmvs_identifier::{Moment, Name};
use nmvs_rules::Actor;
use nmvs_shard::{HashKey, Shard};
use nmvs_words::role_word;
use std::alloc::{AllocError, Allocator, Global};

/// Puts the first hundred users, from a place in the list on, without an entry since a day at the end of a block, in the order of the
/// list, and the place of the next one.
pub(crate) fn append_silent<A: Allocator>(
    alloc: Global,
    block: &mut Vec<u8>,
    shard: &Shard<A>,
    users: &[(Name, Actor)],
    since: i32,
    from: usize,
) -> Result<(), AllocError> {
    let heard = last_heard(alloc, shard)?;
    append(block, "{\"houses\":[")?;
    let mut rows = 0usize;
    for place in from..users.len() {
        let (user, actor) = &users[place];
        let last = heard.get(user);
        if is_silent(last, since) {
            if rows == MOST_ROWS {
                return append_next(block, place);
            }
            append_house(block, rows > 0, user, actor, last)?;
            rows = rows.saturating_add(1);
        }
    }
    append(block, "],\"next\":\"\"}")
}

/// The moment of the last entry of each user that has one.
fn last_heard<A: Allocator>(
    alloc: Global,
    shard: &Shard<A>,
) -> Result<IndexMap<Name, Moment, HashKey>, AllocError> {
    let mut heard = IndexMap::with_hasher(alloc, shard.tables().key());
    for place in 0..shard.len() {
        if let Some(entry) = shard.entry_at(place) {
            let put = entry.put;
            let _earlier = heard.insert(put.user, put.moment)?;
        }
    }
    Ok(heard)
}

/// Whether a user has no entry since a day, by the moment of its last one.
fn is_silent(last: Option<&Moment>, since: i32) -> bool {
    match last {
        None => true,
        Some(last) => last.day() < since,
    }
}

/// The seconds of a moment; 0 if there is none.
fn seconds_of(moment: Option<&Moment>) -> u64 {
    match moment {
        Some(moment) => moment.seconds() as u64,
        None => 0,
    }
}

fn append_next(block: &mut Vec<u8>, place: usize) -> Result<(), AllocError> {
    let mut buffer = Buffer::new();
    append(block, "],\"next\":\"")?;
    append(block, buffer.format(place as u64))?;
    append(block, "\"}")
}

fn append_house(
    block: &mut Vec<u8>,
    is_later: bool,
    user: &Name,
    actor: &Actor,
    last: Option<&Moment>,
) -> Result<(), AllocError> {
    append(
        block,
        if is_later {
            ",{\"user\":\""
        } else {
            "{\"user\":\""
        },
    )?;
    append(block, user.text())?;
    append(block, "\"")?;
    append_text(block, "role", role_word(actor.role))?;
    append_text(block, "authorisation", actor.authorisation.text())?;
    append_text(block, "premises", actor.premises.text())?;
    append_number(block, "last", seconds_of(last))?;
    append(block, "}")
}
