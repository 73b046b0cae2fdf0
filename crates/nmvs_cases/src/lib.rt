//! The investigation of flagged alerts (Article 37(d)): hints at what raised an alert, and cases, with what becomes of one by an act.
//!
//! A [`Hint`] is a fact of the trail, and no verdict. A [`Case`] is what is known of one alert: each starts open, and
//! [`Case::after`] says what an act makes of it, or that its author may not do it. A [`CaseLine`] is an act of an [`Author`] on a
//! [`Range`] of alerts. [`append_case_line`] writes it as a line of a list of cases, and [`read_case_line`] reads it.
#![tactic(auto)]

mod act;
mod author;
mod case;
mod hint;
mod keyboard;
mod laws;
mod line;
mod pieces;
mod range;
mod reading;
mod text;
mod written_line;

pub use act::{Act, Reader, Verdict, Whom};
pub use author::Author;
pub use case::{Case, Informed};
pub use hint::{Hint, hint_of, repeated_hint};
pub use keyboard::{Keyboard, typed_pack};
pub use laws::{
    cases_stay, hints_are_true, lines_have_no_lf, none_is_forgotten, ranges_have_their_own,
};
pub use line::CaseLine;
pub use range::{Hinted, Range};
pub use reading::read_case_line;
pub use text::{CaseText, LONGEST_CASE_TEXT};
pub use written_line::{WrittenLine, append_case_line};
