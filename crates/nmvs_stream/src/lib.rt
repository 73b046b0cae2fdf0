//! Sources and sinks of bytes, and lines of bytes. Contracts see the bytes that a source gave and that a sink took.
#![tactic(auto)]

mod console;
mod delivery;
mod device;
mod failed;
mod lines;
mod sink;
mod source;
mod tape;

pub use console::{Console, Sides};
pub use delivery::{deliver, write_all};
pub use device::Device;
pub use failed::Failed;
pub use lines::cut_line;
pub use sink::Sink;
pub use source::Source;
