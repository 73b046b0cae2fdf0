//! Hints at what raised an alert.
ghost use Rattle.std.specs.Prelude.{◌≡◌, List};
ghost use Rattle.nmvs_rules.specs.declared.entry.Entry.{Entry as AnEntry};
ghost use Rattle.nmvs_tables.specs.Tables.{AreTablesOf};
ghost use Rattle.nmvs_cases.specs.Hints as hints;

use crate::{Keyboard, typed_pack};
use nmvs_identifier::Pack;
use nmvs_rules::{Cause, Known, Mark, PackQuestion, Put, Question};
use nmvs_tables::Tables;
use std::alloc::Allocator;

/// The seconds in which an own operation explains an alert: a day (own).
const SECONDS_REPEATED: i64 = 86_400;

/// What may have raised an alert (own). Each is a fact of the trail, and none excludes a falsification.
#[derive(Clone, Copy)]
pub enum Hint {
    /// The pack was unknown, and was uploaded later.
    Late,
    /// The pack was unknown, and that with the letters of its serial number in the other case is known.
    Caps,
    /// The pack was unknown, and that with y and z exchanged is known.
    Layout,
    /// The pack was unknown, and nobody has uploaded the product code: another market, or no such product.
    NoCode,
    /// The last operation on the pack was at the same premises, at most a day earlier: a second scan.
    Own,
    /// The last operation on the pack was at other premises of the same authorisation, at most a day earlier.
    House,
}

impl Hint {
    /// The word of the hint.
    pub fn word(self) -> &'static str
        ensures { result.now ≡ hints.hint_word self }
    {
        match self {
            Hint::Late => "LATE",
            Hint::Caps => "CAPS",
            Hint::Layout => "LAYOUT",
            Hint::NoCode => "NOCODE",
            Hint::Own => "OWN",
            Hint::House => "HOUSE",
        }
    }

    /// The hint that has this word.
    pub fn named(word: &str) -> Option<Hint>
        ensures { result ≡ hints.hint_named word.now }
    {
        match word {
            "LATE" => Some(Hint::Late),
            "CAPS" => Some(Hint::Caps),
            "LAYOUT" => Some(Hint::Layout),
            "NOCODE" => Some(Hint::NoCode),
            "OWN" => Some(Hint::Own),
            "HOUSE" => Some(Hint::House),
            _ => None,
        }
    }
}

/// The first hint that holds of an alert of this cause about a pack, over a trail with these tables. `repeated` is what
/// [`repeated_hint`] gave when it was raised.
pub fn hint_of<A: Allocator>(
    tables: &Tables<A>,
    pack: &Pack,
    cause: Cause,
    repeated: Option<Hint>,
) -> Option<Hint>
    ensures { (t : List AnEntry) → AreTablesOf tables.now t → result ≡ hints.hint_by t pack.now cause repeated }
{
    match cause {
        Cause::Unknown => unknown_hint(tables, pack),
        _ => repeated,
    }
}

/// The hint at an alert of this cause to a question, by the values known of its pack just before: whether the house repeats what
/// it did.
pub fn repeated_hint(cause: Cause, put: &Put, known: &Option<Known>) -> Option<Hint>
    ensures { result ≡ hints.repeated_hint cause put.now known.now }
{
    match known {
        Some(known) if is_own_cause(cause) => hint_behind(&known.mark, put),
        _ => None,
    }
}

fn unknown_hint<A: Allocator>(tables: &Tables<A>, pack: &Pack) -> Option<Hint>
    ensures { (t : List AnEntry) → AreTablesOf tables.now t → result ≡ hints.unknown_hint t pack.now }
{
    if is_known(tables, pack) {
        Some(Hint::Late)
    } else if is_known(tables, &typed_pack(Keyboard::CapsLock, pack)) {
        Some(Hint::Caps)
    } else if is_known(tables, &typed_pack(Keyboard::ExchangesYAndZ, pack)) {
        Some(Hint::Layout)
    } else if tables.holder(&pack.code).is_none() {
        Some(Hint::NoCode)
    } else {
        None
    }
}

fn is_known<A: Allocator>(tables: &Tables<A>, pack: &Pack) -> bool
    ensures { (t : List AnEntry) → AreTablesOf tables.now t → result ≡ hints.is_known t pack.now }
{
    let question = Question::OfPack(PackQuestion::Status, *pack);
    tables.facts(&question).pack.is_some()
}

/// Whether the cause is an operation of a house that may repeat it.
fn is_own_cause(cause: Cause) -> bool
    ensures { result ≡ hints.is_own_cause cause }
{
    matches!(
        cause,
        Cause::Held | Cause::Supplied | Cause::Exported | Cause::Sampled
    )
}

/// The hint at an alert to a question, by the last operation on its pack.
fn hint_behind(mark: &Mark, put: &Put) -> Option<Hint>
    ensures { result ≡ hints.hint_behind mark.now put.now }
{
    if !is_in_a_day(mark, put) || mark.authorisation != put.actor.authorisation {
        return None;
    }
    if mark.premises == put.actor.premises {
        Some(Hint::Own)
    } else {
        Some(Hint::House)
    }
}

/// Whether a question comes at most a day after an operation.
fn is_in_a_day(mark: &Mark, put: &Put) -> bool
    ensures { result ≡ hints.is_in_a_day mark.now put.now }
{
    put.moment.seconds() <= mark.moment.seconds() + SECONDS_REPEATED
}
