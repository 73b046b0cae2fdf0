//! The figures that a server counts, and their lines for the operator.
ghost use Rattle.std.specs.Prelude.{◌≡◌, ◌<◌, length, IfOk, OnErr, string_bytes};
ghost use Rattle.nmvs_operator.specs.Figures.{figure_line as line_of_figure, figure_lines};

use nmvs_identifier::Name;
use std::alloc::{AllocError, Global};

/// One number that a server counts (own).
#[derive(Clone, Copy)]
pub enum Figure {
    /// How many connections are open.
    Connections(u64),
    /// How many sessions have begun in which a line is served.
    Sessions(u64),
    /// How many entries the trail of the shard of this number has.
    Entries(u64, u64),
    /// How many connections the worker of this number has.
    Worker(u64, u64),
    /// How many flagged alerts this user has raised, the last of them at these premises.
    Alerts(Name, Name, u64),
}

/// The lines of figures, one for each.
///
/// # Errors
///
/// There is no memory for the text. No figures take none.
pub(crate) fn figures_text(alloc: Global, figures: &[Figure]) -> Result<String, AllocError>
    ensures lines { IfOk result (λ text. string_bytes text ≡ figure_lines figures.now) }
    ensures memory { OnErr result (0 < length figures.now) }
{
    let mut text = String::new(alloc);
    for figure in figures {
        let line = figure_line(alloc, figure)?;
        text.push_str(&line)?;
    }
    Ok(text)
}

fn figure_line(alloc: Global, figure: &Figure) -> Result<String, AllocError>
    ensures { IfOk result (λ text. string_bytes text ≡ line_of_figure figure.now) }
{
    match figure {
        Figure::Connections(number) => format!(in alloc; "CONNECTIONS {number}\n"),
        Figure::Sessions(number) => format!(in alloc; "SESSIONS {number}\n"),
        Figure::Entries(shard, number) => format!(in alloc; "ENTRIES {shard} {number}\n"),
        Figure::Worker(worker, number) => format!(in alloc; "WORKER {worker} {number}\n"),
        Figure::Alerts(user, premises, number) => {
            format!(in alloc; "ALERTS {} {} {number}\n", user.text(), premises.text())
        }
    }
}
