//! The table of packs.
ghost use Rattle.std.specs.Prelude.{◌≡◌, ◌+◌, ◌<◌, ◌≤◌, ◌^◌, ◌∷◌, ◌++◌, [], length, vec_len, vec_capacity};
ghost use Rattle.nmvs_identifier.specs.declared.pack.Pack.{Pack};
ghost use Rattle.nmvs_rules.specs.Questions.{pack_of};
ghost use Rattle.nmvs_rules.specs.Trail.{marked_by};
ghost use Rattle.std.specs.Option.{is_some};
ghost use Rattle.nmvs_tables.specs.Packs.{AreWithin, changed, known_by, number_named, places_at, places_in, row_in, row_by, row_named, record_by, places_after, pack_after};

use nmvs_identifier::Pack;
use nmvs_rows::Rows;
use nmvs_rules::{Entry, Known, Question};
use std::alloc::Allocator;

/// The record of a pack that some entry is about (Article 35).
#[derive(Clone, Copy, PartialEq, Eq)]
pub struct PackRecord {
    /// The number of entries about the pack.
    pub about: u64,
    pub known: Option<Known>,
}

/// The record of a pack, and the place of its last entry.
#[derive(Clone, Copy)]
pub(crate) struct PackRow {
    pub about: u64,
    pub known: Option<Known>,
    /// The number of entries up to the last one about the pack, which counts too.
    pub last: u64,
}

/// The places from which the row of a pack is made: 16 bytes. Each is the number of entries up to one about the pack, which
/// counts too, and 0 if there is none.
#[derive(Clone, Copy)]
pub(crate) struct Places {
    /// The number of entries about the pack.
    pub about: u32,
    /// The last entry about it.
    pub last: u32,
    /// Its accepted upload.
    pub upload: u32,
    /// The last accepted entry about it, once it is known.
    pub mark: u32,
}

/// The places of each pack, by its number among the packs that entries name.
pub(crate) type Packs<A> = Vec<Places, A>;

/// The places of a pack that no entry is about.
const NO_PLACES: Places = Places {
    about: 0,
    last: 0,
    upload: 0,
    mark: 0,
};

/// The row of a pack that no entry is about.
const NO_ENTRIES: PackRow = PackRow {
    about: 0,
    known: None,
    last: 0,
};

/// The values known of a pack by the places of its entries.
fn known_by<A: Allocator>(rows: &Rows<A>, places: &Places) -> Option<Known>
    ensures { result ≡ known_by rows.now places.now }
{
    if places.upload == 0 {
        return None;
    }
    if places.mark == 0 {
        return None;
    }
    rows.known(places.upload as usize - 1, places.mark as usize - 1)
}

/// The row that places give.
fn row_by<A: Allocator>(rows: &Rows<A>, places: &Places) -> PackRow
    ensures { result ≡ row_by rows.now places.now }
{
    PackRow {
        about: places.about as u64,
        known: known_by(rows, places),
        last: places.last as u64,
    }
}

/// The places of the pack with this number.
fn places_at<A: Allocator>(packs: &Packs<A>, number: usize) -> Places
    ensures { result ≡ places_at packs.now.items number }
{
    packs.get(number).copied().unwrap_or(NO_PLACES)
}

/// The places of a pack.
fn places_of<A: Allocator>(rows: &Rows<A>, packs: &Packs<A>, pack: &Pack) -> Places
    ensures { result ≡ places_in rows.now packs.now.items pack.now }
{
    places_at(packs, rows.pack_number(pack))
}

/// The row of a pack.
pub(crate) fn row_of<A: Allocator>(rows: &Rows<A>, packs: &Packs<A>, pack: &Pack) -> PackRow
    ensures { result ≡ row_in rows.now packs.now.items pack.now }
{
    row_by(rows, &places_of(rows, packs, pack))
}

/// The record of a pack.
pub(crate) fn record_of<A: Allocator>(
    rows: &Rows<A>,
    packs: &Packs<A>,
    pack: &Pack,
) -> Option<PackRecord>
    ensures { result ≡ record_by (row_in rows.now packs.now.items pack.now) }
{
    let row = row_of(rows, packs, pack);
    if row.about == 0 {
        None
    } else {
        Some(PackRecord {
            about: row.about,
            known: row.known,
        })
    }
}

/// The result of a search for the pack that a question names.
#[derive(Clone, Copy)]
pub(crate) struct Sought {
    /// The number of the pack; 0 if the question names none.
    pub number: usize,
    /// The place of its upload, or 0.
    pub upload: usize,
    /// The row of the pack, or one of no entries.
    pub row: PackRow,
}

/// Searches for the pack that a question names.
pub(crate) fn seek<A: Allocator>(rows: &Rows<A>, packs: &Packs<A>, question: &Question) -> Sought
    ensures number { result.number ≡ number_named rows.now (pack_of question.now) }
    ensures row { result.row ≡ row_named rows.now packs.now.items (pack_of question.now) }
{
    let Some(pack) = question.pack() else {
        return Sought {
            number: 0,
            upload: 0,
            row: NO_ENTRIES,
        };
    };
    let number = rows.pack_number(&pack);
    let places = places_at(packs, number);
    Sought {
        number,
        upload: places.upload.saturating_sub(1) as usize,
        row: row_by(rows, &places),
    }
}

/// The places of a pack after an entry about it, up to which `count` entries stand. The pack was known before it or not.
fn places_after(count: u32, entry: &Entry, is_known: bool, old: &Places) -> Places
    requires about { old.now.about + 1 < 2 ^ 32 }
    ensures { result ≡ places_after count entry.now is_known old.now }
{
    let noted = Places {
        about: old.about + 1,
        last: count,
        ..*old
    };
    let is_born = !is_known && matches!(entry.put.question, Question::Upload { .. });
    if entry.is_accepted() && (is_known || is_born) {
        Places {
            upload: if is_born { count } else { old.upload },
            mark: count,
            ..noted
        }
    } else {
        noted
    }
}

/// The change of the table by the next entry of the rows: the number of its pack, and the places of the pack after it.
/// None if it is about no pack. The pack's number was found, and whether the pack is known.
pub(crate) fn change_by<A: Allocator>(
    rows: &Rows<A>,
    packs: &Packs<A>,
    entry: &Entry,
    number: usize,
    is_known: bool,
) -> Option<(usize, Places)>
    requires few { length rows.now + 1 < 2 ^ 32 }
    requires within { AreWithin rows.now packs.now.items }
    requires number { number ≡ number_named rows.now (pack_of entry.now.put.question) }
    requires known { is_known ≡ is_some (row_named rows.now packs.now.items (pack_of entry.now.put.question)).known }
    ensures within { AreWithin (rows.now ++ entry.now ∷ []) (changed packs.now.items result) }
    ensures noted { (p : Pack) → row_in (rows.now ++ entry.now ∷ []) (changed packs.now.items result) p
        ≡ pack_after p (length rows.now) entry.now (row_in rows.now packs.now.items p) }
{
    let Some(_pack) = entry.put.question.pack() else {
        return None;
    };
    let old = places_at(packs, number);
    let places = places_after(rows.len() as u32 + 1, entry, is_known, &old);
    Some((number, places))
}

/// Makes the change. Room was made for one more pack.
pub(crate) fn make<A: Allocator>(packs: &mut Packs<A>, change: Option<(usize, Places)>)
    requires { vec_len packs.old < vec_capacity packs.old }
    ensures { packs.new.items ≡ changed packs.old.items change }
{
    let Some((number, places)) = change else {
        return;
    };
    if number < packs.len() {
        packs[number] = places;
    } else {
        packs.push_reserved(places);
    }
}
