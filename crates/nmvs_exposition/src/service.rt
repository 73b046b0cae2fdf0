//! The answers to clients over HTTP.
ghost use Rattle.std.specs.Prelude.{◌≡◌};
ghost use Rattle.nmvs_exposition.specs.Visits as specs;

use crate::encode;
use bytes::{BufMut, Bytes};
use http::{HeaderValue, Request, StatusCode, header};
use http_server::{Response, Service};
use nmvs_metrics::{Metrics, Readiness, SystemReading};
use std::alloc::{AllocError, Global};

/// The type of the page of metrics.
const METRICS_TYPE: &str = "text/plain; version=0.0.4; charset=utf-8";

/// The type of the other answers.
const TEXT_TYPE: &str = "text/plain; charset=utf-8";

/// The answer to a request.
#[derive(Clone, Copy)]
pub(crate) enum Content {
    Metrics,
    Alive,
    Ready(Readiness),
    NoPage,
    NoMethod,
}

/// The answer to a request of this method for this path, by a server of this readiness.
pub(crate) fn told(method: &str, path: &str, readiness: Readiness) -> Content
    ensures { result ≡ specs.told method.now path.now readiness }
{
    let page = match path {
        "/metrics" => Content::Metrics,
        "/healthz" => Content::Alive,
        "/readyz" => Content::Ready(readiness),
        _ => return Content::NoPage,
    };
    match method {
        "GET" | "HEAD" => page,
        _ => Content::NoMethod,
    }
}

/// The text of the answer to `/readyz`.
pub(crate) fn text_of(readiness: Readiness) -> &'static str
    ensures { result.now ≡ specs.readiness_text readiness }
{
    match readiness {
        Readiness::Starting => "starting\n",
        Readiness::Standby => "standby\n",
        Readiness::NoEngine => "no engine\n",
        Readiness::Listening => "ok\n",
        Readiness::LogFailed => "log failed\n",
        Readiness::LogHangs => "log hangs\n",
    }
}

/// The status of the answer to `/readyz`.
pub(crate) fn status_of(readiness: Readiness) -> StatusCode
    ensures { result ≡ specs.readiness_status readiness }
{
    match readiness {
        Readiness::Listening => StatusCode::OK,
        Readiness::Starting
        | Readiness::Standby
        | Readiness::NoEngine
        | Readiness::LogFailed
        | Readiness::LogHangs => StatusCode::SERVICE_UNAVAILABLE,
    }
}

/// Answers the requests of all clients.
#[derive(Drop)]
pub struct MetricsService<'p> {
    alloc: Global,
    metrics: &'p Metrics,
    system: SystemReading,
}

impl<'p> Service for MetricsService<'p> {
    // No contract can say what is counted meanwhile.
    ghost answers = { λ _ _ _ _. Unit {0} };

    fn call(
        &mut self,
        request: &Request<Bytes>,
        response: &mut Response,
    ) -> Result<(), AllocError> {
        // One answer a connection: the next client does not wait for a client that stays.
        response.add_header(header::CONNECTION, HeaderValue::from_static("close"))?;
        let (method, path) = (request.method().as_str(), request.uri().path());
        match told(method, path, self.metrics.readiness(self.system.uptime)) {
            Content::Metrics => {
                let page = self.page()?;
                put(response, HeaderValue::from_static(METRICS_TYPE), &page)
            }
            Content::Alive => answer(response, StatusCode::OK, "ok\n"),
            Content::Ready(readiness) => {
                let status = status_of(readiness);
                answer(response, status, text_of(readiness))
            }
            Content::NoPage => answer(response, StatusCode::NOT_FOUND, "not found\n"),
            Content::NoMethod => {
                response.add_header(header::ALLOW, HeaderValue::from_static("GET, HEAD"))?;
                answer(response, StatusCode::METHOD_NOT_ALLOWED, "not allowed\n")
            }
        }
    }
}

impl<'p> MetricsService<'p> {
    /// A service that answers with these metrics and these values of the system.
    pub fn new(alloc: Global, metrics: &'p Metrics, system: SystemReading) -> MetricsService<'p> {
        MetricsService {
            alloc,
            metrics,
            system,
        }
    }

    /// The page of the metrics as they are now.
    fn page(&self) -> Result<String, AllocError> {
        let values = self.metrics.snapshot(self.alloc, &self.system)?;
        encode(self.alloc, &values)
    }
}

fn answer(response: &mut Response, status: StatusCode, text: &str) -> Result<(), AllocError> {
    response.status = status;
    put(response, HeaderValue::from_static(TEXT_TYPE), text)
}

/// Puts a text of this type into a response.
fn put(response: &mut Response, kind: HeaderValue, text: &str) -> Result<(), AllocError> {
    response.add_header(header::CONTENT_TYPE, kind)?;
    response.body.put_slice(text.as_bytes())
}
