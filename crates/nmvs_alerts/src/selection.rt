//! The flagged alerts that a reader asks for.
ghost use Rattle.std.specs.Prelude.{◌≡◌, ◌++◌, IfOk, OnOk};
ghost use Rattle.std.specs.List.{flat_map};
ghost use Rattle.std.specs.Str.{bytes_eq};
ghost use Rattle.nmvs_inspect.specs.Filter.{is_wanted as is_wanted_by};
ghost use Rattle.nmvs_words.specs.Words.{cause_word as word_of_cause};
ghost use Rattle.nmvs_alerts.specs.Answers as answers;
ghost use Rattle.nmvs_alerts.specs.Selection as selection;

use crate::FlaggedAlert;
use crate::alert::alert_of;
use crate::flagged::Flagged;
use crate::viewing::may_see;
use nmvs_cases::{Author, Case, Hint, Hinted};
use nmvs_identifier::ProductCode;
use nmvs_inspect::Filter;
use nmvs_rules::Cause;
use nmvs_shard::Shard;
use nmvs_words::cause_word;
use std::alloc::{AllocError, Allocator, Global};

/// The cases that are wanted.
#[derive(Clone, Copy)]
pub enum Wanted {
    /// Those of the list of work: open, taken, or confirmed and not all are informed (Article 37(d)).
    Listed,
    Any,
    Open,
    Taken,
    Closed,
    Confirmed,
}

/// A filter of flagged alerts. It takes those that pass each test that is set (own).
#[derive(Clone, Copy)]
pub struct AlertFilter {
    /// Of the entries.
    pub entries: Filter,
    pub cause: Option<Cause>,
    pub hinted: Hinted,
    pub wanted: Wanted,
    /// Only those behind this one in the list.
    pub behind: Option<Behind>,
}

impl AlertFilter {
    /// Whether the filter takes a flagged alert with a hint, or with none, as it stands on a trail.
    fn takes<A: Allocator>(&self, shard: &Shard<A>, alert: &FlaggedAlert) -> bool
        ensures { result ≡ selection.takes self.now shard.now alert.now }
    {
        is_cause(self.cause, alert.cause)
            && self.hinted.has(alert.hint)
            && self.wanted.has(&alert.case)
            && self.entries.takes(shard.tables(), &alert.entry)
    }
}

fn is_cause(wanted: Option<Cause>, cause: Cause) -> bool
    ensures { result ≡ is_wanted_by (λ c. bytes_eq (word_of_cause cause) (word_of_cause c)) wanted }
{
    match wanted {
        None => true,
        Some(wanted) => cause_word(cause) == cause_word(wanted),
    }
}

impl Wanted {
    /// Whether a case is one of these.
    fn has(self, case: &Case) -> bool
        ensures { result ≡ selection.has_case self case.now }
    {
        match (self, case) {
            (Wanted::Listed, case) => case.is_listed(),
            (Wanted::Any, _)
            | (Wanted::Open, Case::Open)
            | (Wanted::Taken, Case::Taken(_))
            | (Wanted::Closed, Case::Closed(_))
            | (Wanted::Confirmed, Case::Confirmed(_)) => true,
            _ => false,
        }
    }
}

/// A place in the list of alerts: those without a hint come first, then oldest first.
#[derive(Clone, Copy)]
pub struct Behind {
    pub hinted: bool,
    /// The place of its entry in the trail, counted from 0.
    pub place: usize,
}

/// The flagged alerts that a reader asks for and sees: those without a hint first, then oldest first.
///
/// # Errors
///
/// There is no memory.
pub(crate) fn select<A: Allocator>(
    alloc: Global,
    shard: &Shard<A>,
    flagged: &[Flagged],
    author: &Author,
    filter: &AlertFilter,
) -> Result<Vec<Flagged>, AllocError>
    ensures { IfOk result (λ found. found.items ≡ selection.selected shard.now author.now filter.now flagged.now) }
{
    let mut found = Vec::new(alloc);
    append_wanted(shard, flagged, author, filter, false, &mut found)?;
    append_wanted(shard, flagged, author, filter, true, &mut found)?;
    Ok(found)
}

/// The listed alerts on a product code with these hints that a reader sees, oldest first.
///
/// # Errors
///
/// There is no memory.
pub(crate) fn ranged<A: Allocator>(
    alloc: Global,
    shard: &Shard<A>,
    flagged: &[Flagged],
    author: &Author,
    code: &ProductCode,
    hinted: Hinted,
) -> Result<Vec<Flagged>, AllocError>
    ensures { IfOk result (λ found. found.items ≡ answers.ranged shard.now author.now code.now hinted flagged.now) }
{
    let filter = of_code(code, hinted);
    let mut found = Vec::new(alloc);
    for alert in flagged {
        append_if_wanted(shard, alert, author, &filter, false, &mut found)?;
        append_if_wanted(shard, alert, author, &filter, true, &mut found)?;
    }
    Ok(found)
}

/// The filter of the listed alerts on a product code with these hints.
fn of_code(code: &ProductCode, hinted: Hinted) -> AlertFilter
    ensures { result ≡ answers.of_code code.now hinted }
{
    AlertFilter {
        entries: Filter {
            code: Some(*code),
            ..Filter::new()
        },
        cause: None,
        hinted,
        wanted: Wanted::Listed,
        behind: None,
    }
}

/// Puts those that have a hint, or those that have none, at the end of a list.
fn append_wanted<A: Allocator>(
    shard: &Shard<A>,
    flagged: &[Flagged],
    author: &Author,
    wanted: &AlertFilter,
    hinted: bool,
    found: &mut Vec<Flagged>,
) -> Result<(), AllocError>
    ensures { OnOk result (found.new.items ≡ found.old.items ++ flat_map (selection.wanted shard.now author.now wanted.now hinted) flagged.now) }
{
    for alert in flagged {
        append_if_wanted(shard, alert, author, wanted, hinted, found)?;
    }
    Ok(())
}

fn append_if_wanted<A: Allocator>(
    shard: &Shard<A>,
    flagged: &Flagged,
    author: &Author,
    wanted: &AlertFilter,
    hinted: bool,
    found: &mut Vec<Flagged>,
) -> Result<(), AllocError>
    ensures { OnOk result (found.new.items ≡ found.old.items ++ selection.wanted shard.now author.now wanted.now hinted flagged.now) }
{
    if is_wanted(shard, flagged, author, wanted, hinted) {
        found.push(*flagged)?;
    }
    Ok(())
}

fn is_wanted<A: Allocator>(
    shard: &Shard<A>,
    flagged: &Flagged,
    author: &Author,
    filter: &AlertFilter,
    hinted: bool,
) -> bool
    ensures { result ≡ selection.is_wanted shard.now author.now filter.now hinted flagged.now }
{
    match alert_of(shard, flagged) {
        Some(alert) => {
            has_hint(hinted, alert.hint)
                && is_behind(&filter.behind, hinted, flagged.place)
                && filter.takes(shard, &alert)
                && may_see(shard.tables(), author, &alert.entry.put)
        }
        None => false,
    }
}

fn is_behind(behind: &Option<Behind>, hinted: bool, place: usize) -> bool
    ensures { result ≡ selection.is_behind behind.now hinted place }
{
    match behind {
        None => true,
        Some(last) => match (last.hinted, hinted) {
            (false, true) => true,
            (true, false) => false,
            _ => last.place < place,
        },
    }
}

/// Whether there is a hint, if one is wanted, or none if none is.
fn has_hint(hinted: bool, hint: Option<Hint>) -> bool
    ensures { result ≡ selection.has_hint hinted hint }
{
    if hinted {
        hint.is_some()
    } else {
        hint.is_none()
    }
}
