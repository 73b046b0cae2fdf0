//! Whether an act may be done.
ghost use Rattle.std.specs.Prelude.{◌≡◌, count_by};
ghost use Rattle.nmvs_alerts.specs.Alerts.{is_meant};
ghost use Rattle.nmvs_alerts.specs.Judging as judging;

use crate::FlaggedAlert;
use crate::alert::alert_of;
use crate::flagged::Flagged;
use crate::viewing::may_see;
use nmvs_cases::{Act, CaseLine, Reader};
use nmvs_shard::Shard;
use std::alloc::Allocator;

/// The reason why an act is not done. The first that applies is given.
#[derive(Clone, Copy)]
pub enum CaseRefusal {
    /// No flagged alert that its author sees is in the range.
    NoAlert,
    /// An author of this kind never does the act.
    NotYours,
    /// It is an act on the case of none of these alerts.
    State,
}

/// The number of alerts on which an act is done: those that its line is about in a state for it. The line is written over the trail as
/// it is.
///
/// # Errors
///
/// The first refusal that applies.
pub(crate) fn judge<A: Allocator>(
    shard: &Shard<A>,
    flagged: &[Flagged],
    line: &CaseLine,
) -> Result<u64, CaseRefusal>
    ensures { result ≡ judging.judged shard.now flagged.now line.now }
{
    if count(shard, flagged, line, true) == 0 {
        return Err(CaseRefusal::NoAlert);
    }
    if !is_act_of(line.act, line.author.reader()) {
        return Err(CaseRefusal::NotYours);
    }
    match count(shard, flagged, line, false) {
        0 => Err(CaseRefusal::State),
        number => Ok(number),
    }
}

/// On how many alerts the author of a line may do its act, or how many it is about at all.
fn count<A: Allocator>(shard: &Shard<A>, flagged: &[Flagged], line: &CaseLine, at_all: bool) -> u64
    ensures { result ≡ count_by (λ f. judging.is_counted at_all (judging.on_in shard.now line.now f)) flagged.now }
{
    let mut number = 0;
    for alert in flagged {
        if is_counted(at_all, standing(shard, alert, line)) {
            number += 1;
        }
    }
    number
}

fn is_counted(at_all: bool, on: On) -> bool
    ensures { result ≡ judging.is_counted at_all on }
{
    match on {
        On::Other => false,
        On::May => true,
        On::MayNot => at_all,
    }
}

/// What a line is for an alert.
#[derive(Clone, Copy)]
enum On {
    /// It is about others.
    Other,
    May,
    MayNot,
}

fn standing<A: Allocator>(shard: &Shard<A>, flagged: &Flagged, line: &CaseLine) -> On
    ensures { result ≡ judging.on_in shard.now line.now flagged.now }
{
    let Some(alert) = alert_of(shard, flagged) else {
        return On::Other;
    };
    if !has(line, &alert) || !may_see(shard.tables(), &line.author, &alert.entry.put) {
        return On::Other;
    }
    match alert
        .case
        .after(line.act, line.author.reader(), line.author.user())
    {
        Some(_) => On::May,
        None => On::MayNot,
    }
}

/// Whether a line is about a flagged alert.
pub(crate) fn is_about<A: Allocator>(shard: &Shard<A>, flagged: &Flagged, line: &CaseLine) -> bool
    ensures { result ≡ is_meant shard.now line.now flagged.now }
{
    match alert_of(shard, flagged) {
        Some(alert) => has(line, &alert),
        None => false,
    }
}

fn has(line: &CaseLine, alert: &FlaggedAlert) -> bool
    ensures { result ≡ judging.has_alert line.now alert.now }
{
    line.range
        .has(&alert.name.code, alert.name.number, alert.hint)
}

/// Whether a reader of this kind ever does the act: owners write notes alone, and the authority alone confirms.
pub(crate) fn is_act_of(act: Act, reader: Reader) -> bool
    ensures { result ≡ judging.is_act_of act reader }
{
    match (act, reader) {
        (Act::Note, _) => true,
        (_, Reader::Owner) | (Act::Confirm, Reader::Officer) => false,
        _ => true,
    }
}
