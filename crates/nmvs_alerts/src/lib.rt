//! The flagged alerts of a lawful trail, and the cases about them: the library of a read replica (Articles 35(1)(i), 37(d), 38 and 39).
//!
//! An [`Investigation`] follows a log line by line. It judges each line again by the rules, notes each flagged alert, and keeps what
//! the lines of a list of cases made of each. It never goes back.
//! [`CaseRefusal`] says why an act is not done. An [`AlertFilter`] says which alerts a reader asks for.
#![tactic(auto)]

mod alert;
mod alert_rows;
mod answers;
mod entries;
mod flagged;
mod houses;
mod inspected;
mod investigation;
mod json;
mod judging;
mod laws;
mod numbers;
mod one;
mod pages;
mod row;
mod rows_answer;
mod selection;
mod story;
mod viewing;
mod witness;

pub use alert::FlaggedAlert;
pub use answers::{Request, Status, answer};
pub use inspected::Inspected;
pub use investigation::Investigation;
pub use judging::CaseRefusal;
pub use laws::no_house_is_shown;
pub use selection::{AlertFilter, Behind, Wanted};
pub use witness::Witness;
