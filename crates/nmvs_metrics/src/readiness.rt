//! Whether a server is ready to answer questions.
ghost use Rattle.std.specs.Prelude.{◌≡◌};
ghost use Rattle.nmvs_metrics.specs.Readiness as specs;

/// How many nanoseconds a write or sync of the log takes before the log hangs (own).
const LONGEST_WRITE: u64 = 5_000_000_000;

/// Whether a server is ready to answer questions.
#[derive(Clone, Copy)]
pub enum Readiness {
    /// It does not listen yet.
    Starting,
    /// It follows the server of another machine.
    Standby,
    /// It follows, and the engine does not answer.
    NoEngine,
    Listening,
    /// No new entry can be answered any more.
    LogFailed,
    /// The write or sync of the log that is under way takes too long.
    LogHangs,
}

/// The readiness of a server by four facts: it listens, it follows another, the engine is silent, and the log failed.
/// The write or sync of the log that is under way has taken this many nanoseconds, or 0 if none is.
pub(crate) fn readiness_of(
    listens: bool,
    is_standby: bool,
    is_silent: bool,
    has_failed: bool,
    nanoseconds: u64,
) -> Readiness
    ensures { result ≡ specs.readiness listens is_standby is_silent has_failed nanoseconds }
{
    if has_failed {
        Readiness::LogFailed
    } else if is_standby && is_silent {
        Readiness::NoEngine
    } else if is_standby {
        Readiness::Standby
    } else if nanoseconds > LONGEST_WRITE {
        Readiness::LogHangs
    } else if listens {
        Readiness::Listening
    } else {
        Readiness::Starting
    }
}
