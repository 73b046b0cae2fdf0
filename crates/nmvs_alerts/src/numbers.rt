//! The numbers of the flagged alerts that a reader sees, as JSON.
ghost use Rattle.std.specs.Prelude.{◌≡◌, ◌++◌, ◌==◌, nat_lt, IfOk, OnOk, List as AList, count_by, find};
ghost use Rattle.std.specs.List.{AllZip, flat_map, list_any};
ghost use Rattle.jiff_core.specs.Calendar.{IsEpochDay};
ghost use Rattle.jiff_core.specs.Date.{epoch_day};
ghost use Rattle.jiff_fmt.specs.Text.{date_text};
ghost use Rattle.nmvs_alerts.specs.Json.{joined, led};
ghost use Rattle.nmvs_alerts.specs.Numbers as counts;
ghost use Rattle.nmvs_alerts.specs.declared.alert.FlaggedAlert.{FlaggedAlert as AnAlert};
ghost use Rattle.nmvs_alerts.specs.declared.numbers.Counted.{Counted as ACounted};

use crate::FlaggedAlert;
use crate::alert::alert_of;
use crate::flagged::Flagged;
use crate::json::{append, append_decimal, append_name, append_number};
use crate::viewing::may_see;
use jiff::civil::Date;
use jiff_core::civil;
use nmvs_cases::{Author, Case, Hint, Verdict};
use nmvs_shard::Shard;
use std::alloc::{AllocError, Allocator, Global};

/// The place of the hint of an alert that is not in the list of work: it is not counted.
const NOT_LISTED: usize = 7;

/// What is counted of a flagged alert.
#[derive(Clone, Copy)]
pub(crate) struct Counted {
    /// The place of its state among the numbers.
    pub state: usize,
    /// The place of its hint, if it is in the list of work.
    pub hint: usize,
    /// Its moment, in seconds since 1970-01-01.
    pub moment: u64,
    /// Its week, counted from that of 1970-01-01, and the Monday of the week.
    pub week: u64,
    pub monday: Date,
}

/// Puts the numbers of the flagged alerts that a reader sees at the end of a block.
pub(crate) fn append_numbers<A: Allocator>(
    alloc: Global,
    block: &mut Vec<u8>,
    shard: &Shard<A>,
    flagged: &[Flagged],
    author: &Author,
) -> Result<(), AllocError>
    ensures { OnOk result ((cs : AList ACounted) × AllZip counts.IsCounted (flat_map (counts.seen shard.now author.now) flagged.now) cs
        × (block.new.items ≡ block.old.items ++ counts.numbers_text cs)) }
{
    let counted = counted_of_seen(alloc, shard, flagged, author)?;
    append_counted(alloc, block, &counted)
}

/// What is counted of the flagged alerts that a reader sees.
fn counted_of_seen<A: Allocator>(
    alloc: Global,
    shard: &Shard<A>,
    flagged: &[Flagged],
    author: &Author,
) -> Result<Vec<Counted>, AllocError>
    ensures { IfOk result (λ counted. AllZip counts.IsCounted (flat_map (counts.seen shard.now author.now) flagged.now) counted.items) }
{
    let mut counted = Vec::new(alloc);
    for alert in flagged {
        append_if_seen(shard, alert, author, &mut counted)?;
    }
    Ok(counted)
}

fn append_if_seen<A: Allocator>(
    shard: &Shard<A>,
    flagged: &Flagged,
    author: &Author,
    counted: &mut Vec<Counted>,
) -> Result<(), AllocError>
    ensures { OnOk result ((alerts : AList AnAlert) → AllZip counts.IsCounted alerts counted.old.items
        → AllZip counts.IsCounted (alerts ++ counts.seen shard.now author.now flagged.now) counted.new.items) }
{
    let Some(alert) = alert_of(shard, flagged) else {
        return Ok(());
    };
    if may_see(shard.tables(), author, &alert.entry.put) {
        counted.push(counted_of(&alert))?;
    }
    Ok(())
}

fn counted_of(alert: &FlaggedAlert) -> Counted
    ensures { counts.IsCounted alert.now result }
{
    let moment = alert.entry.put.moment.seconds();
    let day = moment as u64 / 86_400;
    // 1970-01-01 was a Thursday.
    let since_monday = (day + 3) % 7;
    Counted {
        state: state_place(&alert.case),
        hint: listed_place(alert),
        moment: moment as u64,
        week: (day + 3) / 7,
        monday: date_of(day as i64 - since_monday as i64),
    }
}

/// The date of a day, counted from 1970-01-01.
fn date_of(day: i64) -> Date
    requires { IsEpochDay day }
    ensures { epoch_day result ≡ day }
{
    Date::from_plain(civil::Date::from_unix_epoch_day(day).unwrap())
}

/// The place of a state among the numbers.
fn state_place(case: &Case) -> usize
    ensures { result ≡ counts.state_place case.now }
{
    let is_listed = case.is_listed();
    match case {
        Case::Open => 0,
        Case::Taken(_) => 1,
        Case::Confirmed(_) if is_listed => 2,
        Case::Closed(Verdict::Technical) => 3,
        Case::Closed(Verdict::Procedural) => 4,
        Case::Closed(Verdict::Market) => 5,
        Case::Confirmed(_) => 6,
    }
}

/// The place of the hint of an alert, if it is in the list of work.
fn listed_place(alert: &FlaggedAlert) -> usize
    ensures { result ≡ counts.listed_place alert.now }
{
    if alert.case.is_listed() {
        hint_place(alert.hint)
    } else {
        NOT_LISTED
    }
}

fn hint_place(hint: Option<Hint>) -> usize
    ensures { result ≡ counts.hint_place hint }
{
    match hint {
        None => 0,
        Some(Hint::Late) => 1,
        Some(Hint::Caps) => 2,
        Some(Hint::Layout) => 3,
        Some(Hint::NoCode) => 4,
        Some(Hint::Own) => 5,
        Some(Hint::House) => 6,
    }
}

#[tactic(auto, unfolding(crate::specs::Numbers::numbers_text))]
fn append_counted(alloc: Global, block: &mut Vec<u8>, counted: &[Counted]) -> Result<(), AllocError>
    ensures { OnOk result (block.new.items ≡ block.old.items ++ counts.numbers_text counted.now) }
{
    append_listed_states(block, counted)?;
    append_closed_states(block, counted)?;
    append_hints(block, counted)?;
    append_number(block, "oldest", oldest(counted))?;
    append_weeks(alloc, block, counted)
}

#[tactic(auto, unfolding(crate::specs::Numbers::listed_states_text))]
fn append_listed_states(block: &mut Vec<u8>, counted: &[Counted]) -> Result<(), AllocError>
    ensures { OnOk result (block.new.items ≡ block.old.items ++ counts.listed_states_text counted.now) }
{
    append(block, "{\"open\":")?;
    append_decimal(block, in_state(counted, 0))?;
    append_number(block, "taken", in_state(counted, 1))?;
    append_number(block, "confirmed", in_state(counted, 2))
}

#[tactic(auto, unfolding(crate::specs::Numbers::closed_states_text))]
fn append_closed_states(block: &mut Vec<u8>, counted: &[Counted]) -> Result<(), AllocError>
    ensures { OnOk result (block.new.items ≡ block.old.items ++ counts.closed_states_text counted.now) }
{
    append_number(block, "technical", in_state(counted, 3))?;
    append_number(block, "procedural", in_state(counted, 4))?;
    append_number(block, "market", in_state(counted, 5))?;
    append_number(block, "falsified", in_state(counted, 6))
}

fn in_state(counted: &[Counted], place: usize) -> u64
    ensures { result ≡ counts.in_state counted.now place }
{
    counted.iter().filter(|it| it.state == place).count() as u64
}

#[tactic(auto, unfolding(crate::specs::Numbers::hints_text))]
fn append_hints(block: &mut Vec<u8>, counted: &[Counted]) -> Result<(), AllocError>
    ensures { OnOk result (block.new.items ≡ block.old.items ++ counts.hints_text counted.now) }
{
    append_name(block, "hints")?;
    append(block, "[[\"\",")?;
    append_decimal(block, with_hint(counted, 0))?;
    append_unknown_hints(block, counted)?;
    append_repeated_hints(block, counted)
}

/// Puts the numbers of the hints at unknown packs at the end of a block.
#[tactic(auto, unfolding(crate::specs::Numbers::unknown_hints_text))]
fn append_unknown_hints(block: &mut Vec<u8>, counted: &[Counted]) -> Result<(), AllocError>
    ensures { OnOk result (block.new.items ≡ block.old.items ++ counts.unknown_hints_text counted.now) }
{
    append_hint(block, counted, Hint::Late)?;
    append_hint(block, counted, Hint::Caps)?;
    append_hint(block, counted, Hint::Layout)?;
    append_hint(block, counted, Hint::NoCode)
}

/// Puts the numbers of the hints at repetitions at the end of a block.
#[tactic(auto, unfolding(crate::specs::Numbers::repeated_hints_text))]
fn append_repeated_hints(block: &mut Vec<u8>, counted: &[Counted]) -> Result<(), AllocError>
    ensures { OnOk result (block.new.items ≡ block.old.items ++ counts.repeated_hints_text counted.now) }
{
    append_hint(block, counted, Hint::Own)?;
    append_hint(block, counted, Hint::House)?;
    append(block, "]]")
}

#[tactic(auto, unfolding(crate::specs::Numbers::hint_number_text))]
fn append_hint(block: &mut Vec<u8>, counted: &[Counted], hint: Hint) -> Result<(), AllocError>
    ensures { OnOk result (block.new.items ≡ block.old.items ++ counts.hint_number_text counted.now hint) }
{
    append(block, "],[\"")?;
    append(block, hint.word())?;
    append(block, "\",")?;
    append_decimal(block, with_hint(counted, hint_place(Some(hint))))
}

fn with_hint(counted: &[Counted], place: usize) -> u64
    ensures { result ≡ counts.with_hint counted.now place }
{
    counted.iter().filter(|it| it.hint == place).count() as u64
}

/// The moment of the first alert of the list of work; 0 if there is none.
fn oldest(counted: &[Counted]) -> u64
    ensures { result ≡ counts.oldest counted.now }
{
    match first_listed(counted) {
        Some(first) => first.moment,
        None => 0,
    }
}

/// The first alert of the list of work.
fn first_listed(counted: &[Counted]) -> Option<Counted>
    ensures { result ≡ find (λ c. nat_lt c.hint 7) counted.now }
{
    counted.iter().copied().find(|it| it.hint < NOT_LISTED)
}

#[tactic(auto, unfolding(crate::specs::Numbers::weeks_text))]
fn append_weeks(alloc: Global, block: &mut Vec<u8>, counted: &[Counted]) -> Result<(), AllocError>
    ensures { OnOk result (block.new.items ≡ block.old.items ++ counts.weeks_text counted.now) }
{
    append_name(block, "weeks")?;
    append(block, "[")?;
    let weeks = weeks_of(alloc, counted)?;
    append_each_week(alloc, block, counted, &weeks)?;
    append(block, "]}")
}

/// The first alert of each week that has one.
fn weeks_of(alloc: Global, counted: &[Counted]) -> Result<Vec<Counted>, AllocError>
    ensures { IfOk result (λ weeks. weeks.items ≡ counts.weeks_of counted.now) }
{
    let mut weeks = Vec::new(alloc);
    for it in counted {
        append_if_first(&mut weeks, it)?;
    }
    Ok(weeks)
}

fn append_if_first(weeks: &mut Vec<Counted>, it: &Counted) -> Result<(), AllocError>
    ensures { OnOk result (weeks.new.items ≡ counts.with_week weeks.old.items it.now) }
{
    if !has_week(weeks, it.week) {
        weeks.push(*it)?;
    }
    Ok(())
}

fn has_week(weeks: &[Counted], week: u64) -> bool
    ensures { result ≡ list_any (λ w. w.week == week) weeks.now }
{
    weeks.iter().any(|it| it.week == week)
}

/// Puts weeks at the end of a block, each by its first alert, with commas between them.
fn append_each_week(
    alloc: Global,
    block: &mut Vec<u8>,
    counted: &[Counted],
    weeks: &[Counted],
) -> Result<(), AllocError>
    ensures { OnOk result (block.new.items ≡ block.old.items ++ joined (counts.week_text counted.now) weeks.now) }
{
    let [first, others @ ..] = weeks else {
        return Ok(());
    };
    append_week(alloc, block, counted, first)?;
    append_other_weeks(alloc, block, counted, others)
}

fn append_other_weeks(
    alloc: Global,
    block: &mut Vec<u8>,
    counted: &[Counted],
    others: &[Counted],
) -> Result<(), AllocError>
    ensures { OnOk result (block.new.items ≡ block.old.items ++ flat_map (led (counts.week_text counted.now)) others.now) }
{
    for other in others {
        append_led_week(alloc, block, counted, other)?;
    }
    Ok(())
}

fn append_led_week(
    alloc: Global,
    block: &mut Vec<u8>,
    counted: &[Counted],
    week: &Counted,
) -> Result<(), AllocError>
    ensures { OnOk result (block.new.items ≡ block.old.items ++ led (counts.week_text counted.now) week.now) }
{
    append(block, ",")?;
    append_week(alloc, block, counted, week)
}

#[tactic(auto, unfolding(crate::specs::Numbers::week_text))]
fn append_week(
    alloc: Global,
    block: &mut Vec<u8>,
    counted: &[Counted],
    week: &Counted,
) -> Result<(), AllocError>
    ensures { OnOk result (block.new.items ≡ block.old.items ++ counts.week_text counted.now week.now) }
{
    append(block, "[\"")?;
    append_date(alloc, block, week.monday)?;
    append(block, "\",")?;
    append_decimal(block, in_week(counted, week.week))?;
    append(block, "]")
}

fn append_date(alloc: Global, block: &mut Vec<u8>, date: Date) -> Result<(), AllocError>
    ensures { OnOk result (block.new.items ≡ block.old.items ++ date_text date) }
{
    let written = format!(in alloc; "{date}")?;
    block.extend_from_slice(written.as_bytes())
}

fn in_week(counted: &[Counted], week: u64) -> u64
    ensures { result ≡ count_by (λ c. c.week == week) counted.now }
{
    counted.iter().filter(|it| it.week == week).count() as u64
}
