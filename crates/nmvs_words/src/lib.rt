//! The words of the formats: one for each role, status, lock, cause, refusal and kind of question or reply.
//!
//! Each word stands once in the code, in a row with its value, as in [`ROLES`], and once in the specs. Lines, commands, entries,
//! objects of JSON and metrics read these rows. [`QuestionKind`] is a question without the values that it names.
//! `QuestionKind::named("VERIFY")` finds it by its word, and `word` gives the word back. The other words are functions, as
//! [`role_word`] and [`role_named`].
//!
//! This crate composes no lines: `nmvs_line` and `nmvs_protocol` do.
#![tactic(auto)]

mod question_kind;
mod reply_kind;
mod row;
mod words;

pub use question_kind::{QUESTIONS, QuestionKind};
pub use reply_kind::{REPLIES, ReplyKind};
pub use row::named;
pub use words::{
    CAUSES, LOCKS, ONWARDS, OWN_STATUSES, REASONS, REFUSALS, ROLES, cause_named, cause_word,
    flag_named, flag_word, lock_named, lock_word, onward_named, onward_word, own_named, own_word,
    reason_word, refusal_numbered, refusal_word, role_named, role_word, validity_named,
    validity_word,
};
