//! The page of metrics, and the port at which a server has it.
//!
//! [`encode`] writes a [snapshot](nmvs_metrics::Metrics::snapshot) in the text format of Prometheus. [`serve_metrics`] serves that
//! page over HTTP, and answers whether the server lives and whether it is ready. It also watches the system's clock for steps.
#![tactic(auto)]

mod exposition;
mod listener;
mod process;
mod service;

pub use exposition::encode;
pub use listener::{MetricsListener, serve_metrics};
pub use process::{most_files, resident_in};
pub use service::MetricsService;
