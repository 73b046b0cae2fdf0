//! The lines of users, the replies, and sessions.
#![tactic(auto)]

mod help;
mod laws;
mod lines;
mod replies;
mod serving;
mod session;
mod tags;
mod wording;

pub use laws::lines_are_read;
pub use lines::{line_text, read_line};
pub use replies::{VERSION, reply_text};
pub use serving::serve;
pub use session::{Session, Taking, write_texts};
