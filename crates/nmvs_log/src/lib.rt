//! The log of the server, on standard error: one line for each event.
//!
//! A function that logs needs `Log` of its runtime; the program hands down an [`EventLog`]. Each line has the moment
//! (the system's clock in UTC), the level, the words of the event and its values. It is text or an object of JSON.
#![tactic(auto)]

mod escaped;
mod event;
mod event_log;
mod forward;
mod log_format;
mod utc;

pub use event_log::EventLog;
pub use log_format::LogFormat;
pub use utc::Utc;
