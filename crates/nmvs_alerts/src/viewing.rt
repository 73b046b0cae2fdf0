//! Who sees an alert.
ghost use Rattle.std.specs.Prelude.{◌≡◌, List};
ghost use Rattle.nmvs_identifier.specs.Texts.{same_text};
ghost use Rattle.nmvs_rules.specs.declared.entry.Entry.{Entry as AnEntry};
ghost use Rattle.nmvs_tables.specs.Tables.{AreTablesOf};
ghost use Rattle.nmvs_alerts.specs.Viewing as views;

use nmvs_cases::{Author, Reader};
use nmvs_identifier::Name;
use nmvs_rules::{Actor, Put, Role};
use nmvs_shard::Tables;
use std::alloc::Allocator;

/// Whether somebody sees an alert that this question raised (Articles 38 and 39): an officer and an authority each, a holder those on
/// its product codes, any other house its own.
pub(crate) fn may_see<A: Allocator>(tables: &Tables<A>, author: &Author, put: &Put) -> bool
    ensures { (t : List AnEntry) → AreTablesOf tables.now t → result ≡ views.may_see t author.now put.now }
{
    match author {
        Author::Officer(_) => true,
        Author::User(_, actor) => may_see_as(tables, actor, put),
    }
}

fn may_see_as<A: Allocator>(tables: &Tables<A>, actor: &Actor, put: &Put) -> bool
    ensures { (t : List AnEntry) → AreTablesOf tables.now t → result ≡ views.may_see_as t actor.now put.now }
{
    match actor.role {
        Role::Authority => true,
        Role::Holder => is_holder(&actor.authorisation, &tables.holder(&put.question.code())),
        Role::Manufacturer | Role::Wholesaler | Role::Pharmacy => is_own(actor, put),
    }
}

fn is_holder(authorisation: &Name, holder: &Option<Name>) -> bool
    ensures { result ≡ views.is_holder authorisation.now holder.now }
{
    match holder {
        Some(holder) => *authorisation == *holder,
        None => false,
    }
}

/// Whether a question was asked at the premises of this capacity.
pub(crate) fn is_own(actor: &Actor, put: &Put) -> bool
    ensures { result ≡ views.is_own actor.now put.now }
{
    actor.authorisation == put.actor.authorisation && actor.premises == put.actor.premises
}

/// Whether somebody sees who asked: not the holder of a product code (Article 38).
pub(crate) fn sees_houses(author: &Author) -> bool
    ensures { result ≡ views.sees_houses author.now }
{
    match author {
        Author::Officer(_) => true,
        Author::User(_, actor) => !matches!(actor.role, Role::Holder),
    }
}

/// Whether somebody sees what an author did: owners see their own alone.
pub(crate) fn sees_act(reader: &Author, by: &Author) -> bool
    ensures { result ≡ views.sees_act reader.now by.now }
{
    match reader.reader() {
        Reader::Owner => *by.user() == *reader.user(),
        Reader::Officer | Reader::Authority => true,
    }
}
