//! Refusals of requests.
use http::StatusCode;
use nmvs_alerts::CaseRefusal;
use std::alloc::AllocError;

/// Why a request is refused.
#[derive(Clone, Copy)]
pub(crate) enum Refusal {
    /// Nobody who may read.
    Nobody,
    /// A browser sent the request for a page of another site.
    Site,
    /// A parameter or a body cannot be read.
    Query,
    /// No such alert for this reader.
    NoAlert,
    /// Never for this reader.
    NotYours,
    /// No act on an alert in its state.
    State,
    /// A text that the act does not take.
    Text,
    /// More rows than an answer has room for.
    Rows,
    /// A file could not be written.
    File,
    /// Acts of an earlier run wait for the trail, or the replica does not go on.
    NotReady,
    Memory,
}

impl Refusal {
    pub fn status(self) -> StatusCode {
        match self {
            Refusal::Query => StatusCode::BAD_REQUEST,
            Refusal::Nobody | Refusal::Site | Refusal::NotYours => StatusCode::FORBIDDEN,
            Refusal::NoAlert => StatusCode::NOT_FOUND,
            Refusal::State => StatusCode::CONFLICT,
            Refusal::Text | Refusal::Rows => StatusCode::UNPROCESSABLE_ENTITY,
            Refusal::File | Refusal::NotReady | Refusal::Memory => StatusCode::SERVICE_UNAVAILABLE,
        }
    }

    pub fn word(self) -> &'static str {
        match self {
            Refusal::Nobody => "NOBODY",
            Refusal::Site => "SITE",
            Refusal::Query => "QUERY",
            Refusal::NoAlert => "NO_ALERT",
            Refusal::NotYours => "NOT_YOURS",
            Refusal::State => "STATE",
            Refusal::Text => "TEXT",
            Refusal::Rows => "ROWS",
            Refusal::File => "FILE",
            Refusal::NotReady => "NOT_READY",
            Refusal::Memory => "MEMORY",
        }
    }
}

impl From<AllocError> for Refusal {
    fn from(_: AllocError) -> Refusal {
        Refusal::Memory
    }
}

impl From<CaseRefusal> for Refusal {
    fn from(refusal: CaseRefusal) -> Refusal {
        match refusal {
            CaseRefusal::NoAlert => Refusal::NoAlert,
            CaseRefusal::NotYours => Refusal::NotYours,
            CaseRefusal::State => Refusal::State,
        }
    }
}
