//! The library's side: what readers ask, and how an act is carried out.
use crate::query::{Parameters, asked_of};
use crate::refusal::Refusal;
use crate::routes::Served;
use crate::rows_json::rows_json;
use nmvs_alerts::{Investigation, Request, Status, answer};
use nmvs_cases::{Act, Author, CaseLine};
use nmvs_identifier::Name;
use nmvs_inspect::Form;
use nmvs_rules::Actor;
use std::alloc::{AllocError, Global};

/// What an answer is made of.
#[derive(Clone, Copy)]
pub(crate) struct Basis<'r> {
    pub investigation: &'r Investigation,
    /// The users that are enrolled.
    pub enrolled: &'r [(Name, Actor)],
    /// Why the replica does not go on, or nothing.
    pub fault: &'r str,
}

/// The answer to what an author asks for by these parameters and the text of an alert's name, or its refusal.
pub(crate) fn answer_of(
    alloc: Global,
    basis: &Basis<'_>,
    author: &Author,
    served: Served,
    parameters: &Parameters,
    alert: &str,
) -> Result<Vec<u8>, Refusal> {
    let Some(request) = asked_of(basis, served, parameters, alert) else {
        return Err(Refusal::Query);
    };
    let is_json = !matches!(parameters.form, Some(Form::Csv));
    let mut bytes = Vec::new(alloc);
    match answer(alloc, basis.investigation, author, &request, &mut bytes)? {
        Status::Found if is_json && matches!(&request, Request::Rows(_)) => {
            Ok(rows_json(alloc, &bytes)?)
        }
        Status::Found => Ok(bytes),
        Status::NoAlert => Err(Refusal::NoAlert),
        Status::NotYours => Err(Refusal::NotYours),
        Status::TooLong => Err(Refusal::Rows),
    }
}

/// Carries out the act of a line with this text. If it is refused, nothing changes.
pub(crate) fn carry_out(
    investigation: &mut Investigation,
    line: &CaseLine,
    text: &str,
) -> Result<(), Refusal> {
    if line.at != investigation.len() as u64 {
        return Err(Refusal::State);
    }
    investigation.act(line, text)?;
    Ok(())
}

/// The answer to an act that was done on this number of alerts.
pub(crate) fn done_text(alloc: Global, act: Act, alerts: u64) -> Result<String, AllocError> {
    let case = state_after(act);
    format!(in alloc; "{{\"case\":\"{case}\",\"alerts\":{alerts}}}")
}

/// The word of the state that an act leaves; nothing for a note, which changes none.
fn state_after(act: Act) -> &'static str {
    match act {
        Act::Take => "TAKEN",
        Act::Leave | Act::Reopen => "OPEN",
        Act::Note => "",
        Act::Close(_) => "CLOSED",
        Act::Confirm | Act::Inform(_) => "CONFIRMED",
    }
}
