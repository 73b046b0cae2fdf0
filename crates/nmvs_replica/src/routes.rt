//! What a request is for, by its method and path.
ghost use Rattle.std.specs.Prelude.{◌≡◌};
ghost use Rattle.nmvs_replica.specs.Routes as specs;

/// What is served.
#[derive(Clone, Copy)]
pub(crate) enum Served {
    Health,
    Page,
    Script,
    Words,
    Reader,
    Alerts,
    Alert,
    Range,
    Numbers,
    Entries,
    Counts,
    Pack,
    Packs,
    Report,
    Houses,
    Cases,
}

/// What becomes of a request.
#[derive(Clone, Copy)]
pub(crate) enum Route {
    Serves(Served),
    /// Nothing is there.
    Nowhere,
    /// Something is there, for these methods alone.
    OnlyFor(Methods),
}

/// The methods of what is served.
#[derive(Clone, Copy)]
pub(crate) enum Methods {
    /// GET and HEAD.
    Read,
    /// POST.
    Act,
}

/// The front of the path of one alert.
const ALERT: &str = "/v1/alerts/";

/// The route of a request of this method for this path.
pub(crate) fn route_of(method: &str, path: &str) -> Route {
    match served_at(path) {
        Some(served) => by_method(served, method),
        None if path.starts_with(ALERT) => by_method(Served::Alert, method),
        None => Route::Nowhere,
    }
}

fn by_method(served: Served, method: &str) -> Route
    ensures { result ≡ specs.by_method served method.now }
{
    match served {
        Served::Cases => match method {
            "POST" => Route::Serves(served),
            _ => Route::OnlyFor(Methods::Act),
        },
        _ => match method {
            "GET" | "HEAD" => Route::Serves(served),
            _ => Route::OnlyFor(Methods::Read),
        },
    }
}

/// What is served at a path that is not that of one alert.
fn served_at(path: &str) -> Option<Served>
    ensures { result ≡ specs.served_at path.now }
{
    match path {
        "/healthz" => Some(Served::Health),
        "/" => Some(Served::Page),
        "/alerts.js" => Some(Served::Script),
        "/alerts-words.js" => Some(Served::Words),
        "/v1/reader" => Some(Served::Reader),
        "/v1/alerts" => Some(Served::Alerts),
        "/v1/range" => Some(Served::Range),
        "/v1/numbers" => Some(Served::Numbers),
        "/v1/entries" => Some(Served::Entries),
        "/v1/counts" => Some(Served::Counts),
        "/v1/pack" => Some(Served::Pack),
        "/v1/packs" => Some(Served::Packs),
        "/v1/report" => Some(Served::Report),
        "/v1/houses" => Some(Served::Houses),
        "/v1/cases" => Some(Served::Cases),
        _ => None,
    }
}

/// The text of the name of the alert that a path is of.
pub(crate) fn alert_text(path: &str) -> &str {
    path.strip_prefix(ALERT).unwrap_or("")
}
