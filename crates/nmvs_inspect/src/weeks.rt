//! Groups of alerts by week, as a picture.
ghost use Rattle.std.specs.Prelude.{◌≡◌, ◌++◌, ◌≤◌, Some, IfOk, OnOk, string_bytes};
ghost use Rattle.std.specs.List.{flat_map};
ghost use Rattle.nmvs_inspect.specs.Weeks as weeks;

use crate::groups::Group;
use std::alloc::{AllocError, Global};

/// The weeks and the height of a picture.
#[derive(Clone, Copy)]
pub(crate) struct Span {
    /// A group of the first week.
    pub first: Group,
    /// A group of the last one.
    pub last: Group,
    /// The most entries of a group.
    pub most: u64,
}

/// Puts the picture of weeks at the end of a block. Each week is one group.
pub(crate) fn append_chart(
    alloc: Global,
    block: &mut Vec<u8>,
    groups: &[Group],
) -> Result<(), AllocError>
    ensures { OnOk result (block.new.items ≡ block.old.items ++ weeks.chart groups.now) }
{
    match span_of(groups) {
        None => block.extend_from_slice(b"<p>None.</p>\n"),
        Some(span) => append_spanned(alloc, block, groups, &span),
    }
}

fn append_spanned(
    alloc: Global,
    block: &mut Vec<u8>,
    groups: &[Group],
    span: &Span,
) -> Result<(), AllocError>
    ensures { OnOk result (block.new.items ≡ block.old.items ++ weeks.spanned groups.now (Some span.now)) }
{
    append_opening(alloc, block, span)?;
    append_bars(alloc, block, groups)?;
    append_caption(alloc, block, span)
}

fn span_of(groups: &[Group]) -> Option<Span>
    ensures { result ≡ weeks.span_of groups.now }
{
    let mut span = None;
    for group in groups {
        span = Some(with_group(&span, group));
    }
    span
}

/// A span with one more group.
fn with_group(span: &Option<Span>, group: &Group) -> Span
    ensures { Some result ≡ weeks.with_group span.now group.now }
{
    match span {
        None => Span {
            first: *group,
            last: *group,
            most: group.number,
        },
        Some(span) => Span {
            first: if week_of(group) < week_of(&span.first) {
                *group
            } else {
                span.first
            },
            last: if week_of(&span.last) < week_of(group) {
                *group
            } else {
                span.last
            },
            most: span.most.max(group.number),
        },
    }
}

/// The week of a group's first entry, counted from that of 1970-01-01, by UTC.
#[tactic(auto, unfolding(crate::specs::Weeks::week_of))]
fn week_of(group: &Group) -> u64
    ensures week { result ≡ weeks.week_of group.now }
    ensures small { result ≤ 6_783 }
{
    (group.first.put.moment.seconds() as u64 / 86_400 + 3) / 7
}

/// How many weeks there are from the first to the last.
#[tactic(auto, unfolding(crate::specs::Weeks::weeks_in))]
fn weeks_in(span: &Span) -> u64
    ensures { result ≡ weeks.weeks_in span.now }
{
    week_of(&span.last).saturating_sub(week_of(&span.first)) + 1
}

#[tactic(auto, unfolding(crate::specs::Weeks::opening))]
fn append_opening(alloc: Global, block: &mut Vec<u8>, span: &Span) -> Result<(), AllocError>
    ensures { OnOk result (block.new.items ≡ block.old.items ++ weeks.opening span.now) }
{
    let number = weeks_in(span);
    append_width(alloc, block, number)?;
    append_view(alloc, block, week_of(&span.first), number, span.most)
}

fn append_width(alloc: Global, block: &mut Vec<u8>, number: u64) -> Result<(), AllocError>
    ensures { OnOk result (block.new.items ≡ block.old.items ++ weeks.width number) }
{
    let width = format!(in alloc;
        "<figure><svg role=\"img\" preserveAspectRatio=\"none\" width=\"{number}em\" viewBox=\""
    )?;
    block.extend_from_slice(width.as_bytes())
}

fn append_view(
    alloc: Global,
    block: &mut Vec<u8>,
    first: u64,
    number: u64,
    most: u64,
) -> Result<(), AllocError>
    ensures { OnOk result (block.new.items ≡ block.old.items ++ weeks.view first number most) }
{
    let view = format!(in alloc;
        "{first} -{most} {number} {most}\"><g transform=\"scale(1 -1)\">\n"
    )?;
    block.extend_from_slice(view.as_bytes())
}

fn append_bars(alloc: Global, block: &mut Vec<u8>, groups: &[Group]) -> Result<(), AllocError>
    ensures { OnOk result (block.new.items ≡ block.old.items ++ flat_map weeks.bar groups.now) }
{
    for group in groups {
        append_bar(alloc, block, group)?;
    }
    Ok(())
}

fn append_bar(alloc: Global, block: &mut Vec<u8>, group: &Group) -> Result<(), AllocError>
    ensures { OnOk result (block.new.items ≡ block.old.items ++ weeks.bar group.now) }
{
    let bar = bar(alloc, group)?;
    block.extend_from_slice(bar.as_bytes())
}

/// The bar of a week.
fn bar(alloc: Global, group: &Group) -> Result<String, AllocError>
    ensures { IfOk result (λ text. string_bytes text ≡ weeks.bar group.now) }
{
    let week = week_of(group);
    let monday = group.monday;
    let number = group.number;
    format!(in alloc;
        "<rect x=\"{week}\" width=\".8\" height=\"{number}\"><title>{monday}: {number}</title></rect>\n"
    )
}

#[tactic(auto, unfolding(crate::specs::Weeks::caption))]
fn append_caption(alloc: Global, block: &mut Vec<u8>, span: &Span) -> Result<(), AllocError>
    ensures { OnOk result (block.new.items ≡ block.old.items ++ weeks.caption span.now) }
{
    let first = span.first.monday;
    let last = span.last.monday;
    let most = span.most;
    let caption = format!(in alloc;
        "</g></svg><figcaption>From the week of {first} to that of {last}; the highest bar is {most}.</figcaption></figure>\n"
    )?;
    block.extend_from_slice(caption.as_bytes())
}
