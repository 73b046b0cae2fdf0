//! What a reader asks for, by the parameters of a request.
use crate::answers::Basis;
use crate::refusal::Refusal;
use crate::routes::Served;
use form_urlencoded::parse;
use jiff::civil::Date;
use nmvs_alerts::{AlertFilter, Behind, Inspected, Request, Wanted};
use nmvs_cases::Hinted;
use nmvs_identifier::{Batch, Name, Pack, ProductCode, Serial};
use nmvs_inspect::{By, Filter, Form, read_date};
use nmvs_reports::AlertName;
use nmvs_rules::Cause;
use nmvs_words::{QuestionKind, ReplyKind, cause_named, role_named};
use std::alloc::{AllocError, Global};

/// The parameters of a request. Each is given at most once; one without a value is as if it were not given.
#[derive(Drop)]
pub(crate) struct Parameters {
    pub entries: Filter,
    pub cause: Option<Cause>,
    pub hinted: Option<Hinted>,
    pub wanted: Option<Wanted>,
    pub silent_since: Option<Date>,
    pub by: Vec<By>,
    pub form: Option<Form>,
    pub after: Option<String>,
}

/// Whether a request may have a parameter of this name.
fn is_parameter(served: Served, name: &str) -> bool {
    match served {
        Served::Alerts => matches!(
            name,
            "state" | "code" | "cause" | "hint" | "premises" | "from" | "to" | "after" | "form"
        ),
        Served::Range => matches!(name, "code" | "hint" | "form"),
        Served::Entries => is_filter(name) || matches!(name, "after" | "form"),
        Served::Counts => is_filter(name) || matches!(name, "by" | "form"),
        Served::Pack => matches!(name, "code" | "serial" | "form"),
        Served::Packs => matches!(name, "code" | "batch" | "form"),
        Served::Report => matches!(name, "code" | "form"),
        Served::Houses => matches!(name, "silent_since" | "after" | "form"),
        _ => name == "form",
    }
}

/// Whether this is the name of a parameter of a filter of entries.
fn is_filter(name: &str) -> bool {
    matches!(
        name,
        "user"
            | "role"
            | "authorisation"
            | "premises"
            | "code"
            | "serial"
            | "batch"
            | "question"
            | "reply"
            | "from"
            | "to"
            | "flagged"
            | "refused"
    )
}

/// The parameters of a query, whose escapes are decoded once. It is refused if a name is unknown or stands twice, or a value is bad.
pub(crate) fn read_parameters(
    alloc: Global,
    served: Served,
    query: &str,
) -> Result<Parameters, Refusal> {
    let mut parameters = Parameters {
        entries: Filter::new(),
        cause: None,
        hinted: None,
        wanted: None,
        silent_since: None,
        by: Vec::new(alloc),
        form: None,
        after: None,
    };
    for pair in parse(alloc, query.as_bytes()) {
        let (name, value) = pair?;
        let (name, value) = (name.as_str(), value.as_str());
        if !is_parameter(served, name) || !takes(alloc, &mut parameters, name, value)? {
            return Err(Refusal::Query);
        }
    }
    Ok(parameters)
}

/// Reads the value of a parameter. It is false if it is bad, or the parameter has one already.
fn takes(
    alloc: Global,
    parameters: &mut Parameters,
    name: &str,
    value: &str,
) -> Result<bool, AllocError> {
    if value.is_empty() {
        return Ok(true);
    }
    Ok(match name {
        "state" => put(&mut parameters.wanted, wanted_named(value)),
        "cause" => put(&mut parameters.cause, cause_named(value)),
        "hint" => put(&mut parameters.hinted, Hinted::named(value)),
        "silent_since" => put(&mut parameters.silent_since, read_date(alloc, value)?),
        "by" => reads_parts(&mut parameters.by, value)?,
        "form" => put(&mut parameters.form, form_named(value)),
        "after" => {
            let is_first = parameters.after.is_none();
            parameters.after = Some(String::from_str(alloc, value)?);
            is_first
        }
        _ => filters(alloc, &mut parameters.entries, name, value)?,
    })
}

/// Reads the parts by which entries are counted, with commas between them.
fn reads_parts(parts: &mut Vec<By>, value: &str) -> Result<bool, AllocError> {
    let is_first = parts.is_empty();
    for word in value.split(',') {
        match By::named(word) {
            Some(by) => parts.push(by).map_err(|_| AllocError)?,
            None => return Ok(false),
        }
    }
    Ok(is_first)
}

/// Reads the value of a parameter into a filter of entries.
fn filters(
    alloc: Global,
    filter: &mut Filter,
    name: &str,
    value: &str,
) -> Result<bool, AllocError> {
    Ok(match name {
        "from" => put(&mut filter.from, read_date(alloc, value)?),
        "to" => put(&mut filter.to, read_date(alloc, value)?),
        "user" => put(&mut filter.user, Name::read(value).ok()),
        "role" => put(&mut filter.role, role_named(value)),
        "authorisation" => put(&mut filter.authorisation, Name::read(value).ok()),
        "premises" => put(&mut filter.premises, Name::read(value).ok()),
        "code" => put(&mut filter.code, ProductCode::read(value).ok()),
        "serial" => put(&mut filter.serial, Serial::read(value).ok()),
        "batch" => put(&mut filter.batch, Batch::read(value).ok()),
        "question" => put(&mut filter.question, QuestionKind::named(value)),
        "reply" => put(&mut filter.reply, ReplyKind::named(value)),
        "flagged" => set(&mut filter.flagged, value),
        "refused" => set(&mut filter.refused, value),
        _ => false,
    })
}

/// Writes what was read where nothing was. It is false if nothing was read, or something was there.
fn put<T: Copy>(place: &mut Option<T>, read: Option<T>) -> bool {
    if place.is_some() || read.is_none() {
        return false;
    }
    *place = read;
    true
}

/// Sets a mark that was not set, by the value `1` or `true`.
fn set(place: &mut bool, value: &str) -> bool {
    let is_new = !*place;
    *place = true;
    is_new && matches!(value, "1" | "true")
}

fn wanted_named(word: &str) -> Option<Wanted> {
    match word {
        "OPEN" => Some(Wanted::Open),
        "TAKEN" => Some(Wanted::Taken),
        "CLOSED" => Some(Wanted::Closed),
        "CONFIRMED" => Some(Wanted::Confirmed),
        "ANY" => Some(Wanted::Any),
        _ => None,
    }
}

fn form_named(word: &str) -> Option<Form> {
    match word {
        "csv" => Some(Form::Csv),
        "json" => Some(Form::Json),
        _ => None,
    }
}

/// What a request asks for, by its parameters and the text of the alert's name in its path; none if one is missing or bad.
pub(crate) fn asked_of<'t>(
    basis: &Basis<'t>,
    served: Served,
    parameters: &'t Parameters,
    alert: &str,
) -> Option<Request<'t>> {
    let hinted = parameters.hinted.unwrap_or(Hinted::Any);
    if let Some(Form::Csv) = parameters.form {
        return match served {
            Served::Alerts => Some(Request::AlertRows(filter_of(parameters, hinted)?)),
            _ => rows_of(served, parameters),
        };
    }
    match served {
        Served::Reader => Some(Request::Reader(basis.fault)),
        Served::Numbers => Some(Request::Numbers),
        Served::Alert => Some(Request::Alert(AlertName::read(alert)?)),
        Served::Range => Some(Request::Range(parameters.entries.code?, hinted)),
        Served::Alerts => Some(Request::Alerts(filter_of(parameters, hinted)?)),
        Served::Entries => Some(Request::Entries(parameters.entries, place_of(parameters)?)),
        Served::Houses => {
            let since = parameters.silent_since?.to_plain().to_unix_epoch_day();
            Some(Request::Houses(basis.enrolled, since, place_of(parameters)?))
        }
        _ => rows_of(served, parameters),
    }
}

/// The request for rows of what is inspected; none if a parameter is missing, or nothing is inspected.
fn rows_of(served: Served, parameters: &Parameters) -> Option<Request<'_>> {
    let entries = &parameters.entries;
    match served {
        Served::Entries if parameters.after.is_none() => {
            Some(Request::Rows(Inspected::Entries(*entries)))
        }
        Served::Counts if !parameters.by.is_empty() => {
            Some(Request::Rows(Inspected::Counts(*entries, &parameters.by)))
        }
        Served::Pack => Some(Request::Rows(Inspected::Pack(Pack {
            code: entries.code?,
            serial: entries.serial?,
        }))),
        Served::Packs => Some(Request::Rows(Inspected::Packs(entries.code?, entries.batch?))),
        Served::Report => Some(Request::Rows(Inspected::Report(entries.code?))),
        _ => None,
    }
}

fn filter_of(parameters: &Parameters, hinted: Hinted) -> Option<AlertFilter> {
    let behind = match &parameters.after {
        None => None,
        Some(text) => Some(behind_named(text)?),
    };
    Some(AlertFilter {
        entries: parameters.entries,
        cause: parameters.cause,
        hinted,
        wanted: parameters.wanted.unwrap_or(Wanted::Listed),
        behind,
    })
}

/// The place in the list of alerts that a text names.
fn behind_named(text: &str) -> Option<Behind> {
    let (letter, place) = text.split_at_checked(1)?;
    let hinted = match letter {
        "h" => true,
        "u" => false,
        _ => return None,
    };
    let place = place.parse().ok()?;
    Some(Behind { hinted, place })
}

/// The place that the next rows come behind.
fn place_of(parameters: &Parameters) -> Option<usize> {
    match &parameters.after {
        None => Some(0),
        Some(text) => text.parse().ok(),
    }
}
