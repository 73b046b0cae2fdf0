//! The answers over HTTP.
use crate::act_body::read_act;
use crate::query::read_parameters;
use crate::refusal::Refusal;
use crate::replica::Replica;
use crate::routes::{Methods, Route, Served, alert_text, route_of};
use bytes::{BufMut, Bytes};
use http::{HeaderValue, Request, StatusCode, header};
use http_server::{Response, Service};
use nmvs_cases::Author;
use nmvs_identifier::Tag;
use nmvs_inspect::Form;
use std::alloc::AllocError;
use std::str;

const JSON_TYPE: &str = "application/json";

const CSV_TYPE: &str = "text/csv; charset=utf-8; header=present";

const PAGE_TYPE: &str = "text/html; charset=utf-8";

const SCRIPT_TYPE: &str = "text/javascript; charset=utf-8";

const TEXT_TYPE: &str = "text/plain; charset=utf-8";

/// What the page may do in a browser: the page's own policy says which style it has.
const POLICY: &str =
    "default-src 'none'; style-src 'unsafe-inline'; script-src 'self'; connect-src 'self'; img-src data:; base-uri 'none'; \
    form-action 'none'; frame-ancestors 'none'";

impl Service for Replica {
    // No contract can say what was read of the log.
    ghost answers = { λ _ _ _ _. Unit {0} };

    fn call(
        &mut self,
        request: &Request<Bytes>,
        response: &mut Response,
    ) -> Result<(), AllocError> {
        if self.respond(request, response).is_err() {
            response.clear();
            response.status = StatusCode::SERVICE_UNAVAILABLE;
        }
        Ok(())
    }
}

impl Replica {
    fn respond(
        &mut self,
        request: &Request<Bytes>,
        response: &mut Response,
    ) -> Result<(), AllocError> {
        response.add_header(header::CACHE_CONTROL, HeaderValue::from_static("no-store"))?;
        response.add_header(
            header::X_CONTENT_TYPE_OPTIONS,
            HeaderValue::from_static("nosniff"),
        )?;
        match route_of(request.method().as_str(), request.uri().path()) {
            Route::Nowhere => put_text(response, StatusCode::NOT_FOUND, "not found\n"),
            Route::OnlyFor(methods) => {
                response.add_header(header::ALLOW, names_of(methods))?;
                put_text(response, StatusCode::METHOD_NOT_ALLOWED, "not allowed\n")
            }
            Route::Serves(Served::Health) => put_text(response, StatusCode::OK, "ok\n"),
            Route::Serves(served @ (Served::Page | Served::Script | Served::Words)) => {
                self.put_page(served, response)
            }
            Route::Serves(served) => self.put_for_author(served, request, response),
        }
    }

    /// Answers with a file of the page.
    fn put_page(&self, served: Served, response: &mut Response) -> Result<(), AllocError> {
        let content = match &self.pages {
            Some(pages) => pages.content(served),
            None => None,
        };
        match content {
            Some(bytes) => {
                let policy = HeaderValue::from_static(POLICY);
                response.add_header(header::CONTENT_SECURITY_POLICY, policy)?;
                put(response, type_of(served), bytes)
            }
            None => put_text(response, StatusCode::NOT_FOUND, "not found\n"),
        }
    }

    /// Answers what only those who may read get.
    fn put_for_author(
        &mut self,
        served: Served,
        request: &Request<Bytes>,
        response: &mut Response,
    ) -> Result<(), AllocError> {
        match self.answer_author(served, request) {
            Ok((form, bytes)) => put(response, type_in(form), &bytes),
            Err(refusal) => refuse(response, refusal),
        }
    }

    /// The answer to an author's request, with the form that it asks for.
    fn answer_author(
        &mut self,
        served: Served,
        request: &Request<Bytes>,
    ) -> Result<(Option<Form>, Vec<u8>), Refusal> {
        let author = self.author().ok_or(Refusal::Nobody)?;
        if is_foreign(request) {
            return Err(Refusal::Site);
        }
        match served {
            Served::Cases => Ok((None, self.answer_act(&author, request)?)),
            _ => self.look(served, &author, request),
        }
    }

    /// The answer to what an author asks for.
    fn look(
        &mut self,
        served: Served,
        author: &Author,
        request: &Request<Bytes>,
    ) -> Result<(Option<Form>, Vec<u8>), Refusal> {
        let query = request.uri().query().unwrap_or("");
        let parameters = read_parameters(self.alloc, served, query)?;
        let alert = alert_text(request.uri().path());
        let bytes = self.answer(author, served, &parameters, alert)?;
        if let Served::Alert | Served::Entries | Served::Pack | Served::Packs = served {
            self.note_look(author, path_of(request))?;
        }
        Ok((parameters.form, bytes))
    }

    /// The answer to an act.
    fn answer_act(
        &mut self,
        author: &Author,
        request: &Request<Bytes>,
    ) -> Result<Vec<u8>, Refusal> {
        let asked = read_act(self.alloc, request.body())?;
        let key = key_of(request)?;
        let answer = self.act(author, &asked, key)?;
        Ok(answer.into_bytes())
    }
}

/// The path of a request, with its query.
fn path_of(request: &Request<Bytes>) -> &str {
    match request.uri().path_and_query() {
        Some(path) => path.as_str(),
        None => request.uri().path(),
    }
}

/// The key of an act, if it has one. One that is no tag is refused, and so are two.
fn key_of(request: &Request<Bytes>) -> Result<Option<Tag>, Refusal> {
    let values = request.headers().get_all("idempotency-key");
    let mut values = values.iter();
    let Some(value) = values.next() else {
        return Ok(None);
    };
    let key = match str::from_utf8(value.as_bytes()) {
        Ok(text) => Tag::read(text),
        Err(_) => None,
    };
    if key.is_none() || values.next().is_some() {
        return Err(Refusal::Query);
    }
    Ok(key)
}

/// Whether a browser sent a request for a page of another site.
fn is_foreign(request: &Request<Bytes>) -> bool {
    match request.headers().get("sec-fetch-site") {
        Some(site) => !matches!(site.as_bytes(), b"same-origin" | b"none"),
        None => false,
    }
}

/// The type of an answer in a form.
fn type_in(form: Option<Form>) -> HeaderValue {
    match form {
        Some(Form::Csv) => HeaderValue::from_static(CSV_TYPE),
        _ => HeaderValue::from_static(JSON_TYPE),
    }
}

/// The type of a file of the page.
fn type_of(served: Served) -> HeaderValue {
    match served {
        Served::Page => HeaderValue::from_static(PAGE_TYPE),
        _ => HeaderValue::from_static(SCRIPT_TYPE),
    }
}

fn names_of(methods: Methods) -> HeaderValue {
    match methods {
        Methods::Read => HeaderValue::from_static("GET, HEAD"),
        Methods::Act => HeaderValue::from_static("POST"),
    }
}

/// Puts bytes of this type into a response.
fn put(response: &mut Response, kind: HeaderValue, bytes: &[u8]) -> Result<(), AllocError> {
    response.add_header(header::CONTENT_TYPE, kind)?;
    response.body.put_slice(bytes)
}

fn put_text(response: &mut Response, status: StatusCode, text: &str) -> Result<(), AllocError> {
    response.status = status;
    put(
        response,
        HeaderValue::from_static(TEXT_TYPE),
        text.as_bytes(),
    )
}

/// Puts a refusal into a response.
fn refuse(response: &mut Response, refusal: Refusal) -> Result<(), AllocError> {
    response.status = refusal.status();
    put(
        response,
        HeaderValue::from_static(JSON_TYPE),
        b"{\"refusal\":\"",
    )?;
    response.body.put_slice(refusal.word().as_bytes())?;
    response.body.put_slice(b"\"}")
}
