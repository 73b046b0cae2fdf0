//! The counters of a running server.
//!
//! The threads of a server count what they do in [`Metrics`], which they share and none waits for. Each worker has
//! counters of its own ([`WorkerMetrics`]). [`Metrics::snapshot`] reads them all, as values of the [`families`] of the
//! page. [`Metrics::readiness`] says whether the server is ready. [`ClockReading`] finds steps of the system's clock.
#![tactic(auto)]

mod clock;
mod counters;
mod kinds;
mod readiness;
mod registry;
mod snapshot;
mod times;

pub use clock::{ClockReading, uptime};
pub use readiness::Readiness;
pub use registry::{Family, Metrics, UserState, WorkerMetrics, families};
pub use snapshot::{Bucket, Histogram, Label, Sample, SystemReading, Values};
