//! Questions and replies as JSON: the line that a question means, and the object of a reply; a bulk is a list of them.
#![tactic(auto)]

mod asked_kind;
mod bulk;
mod laws;
mod question;
mod question_fault;
mod refusal;
mod reply;
mod subject;

pub use asked_kind::AskedKind;
pub use bulk::{BulkLines, bulk_lines};
pub use laws::{no_word_is_left_out, scans_are_computed};
pub use question::{QuestionLine, question_line};
pub use question_fault::QuestionFault;
pub use refusal::{Member, Refusal, refusal_body};
pub use reply::{bulk_body, response_of};
pub use subject::{BulkSubjects, Scanned, Subject};
